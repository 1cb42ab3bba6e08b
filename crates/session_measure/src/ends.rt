// Transactions begin and end, sessions die and are recovered.
ghost use Rattle.std.specs.Prelude.{◌≡◌, ◌≤◌, ◌<◌, ◌+◌, ◌∷◌, ℕ, Bool, false, List, [], Some, None, slice_get};
ghost use Rattle.rdo_ast.specs.declared.reply.Standing.{Standing};
ghost use Rattle.rdo_ast.specs.declared.syntax.Item.{Item};
ghost use Rattle.line_view.specs.Held.{Held};
ghost use Rattle.session_states.specs.States.{session, writer};
ghost use Rattle.session_measure.specs.Weights.{Beside, Falls};
ghost use Rattle.session_states.specs.declared.stage.Phase.TheVariants.{Writing};
ghost use Rattle.line_view.specs.Held.{nothing};
ghost use Rattle.rdo_ast.specs.declared.reply.Standing.TheVariants.{Closed};
ghost use Rattle.session_states.specs.declared.stage.Work.TheVariants.{Opening, Due};
ghost use Rattle.session_states.specs.declared.stage.End.TheVariants.{Preparing, Journal, Ready, Committing, RollingBack, Leaving};
ghost use Rattle.session_states.specs.declared.stage.Stage.TheVariants.{Between, Ending, Working};
ghost use Rattle.session_states.specs.declared.stage.Life.{Life};
ghost use Rattle.session_states.specs.declared.stage.Member.{Member};
ghost use Rattle.session_states.specs.declared.stage.Phase.{Phase};
ghost use Rattle.session_states.specs.declared.stage.Phase.TheVariants.{Closing, Outside, Over};
ghost use Rattle.session_states.specs.States.{dead_session, gone_session};
ghost use Rattle.session_measure.specs.Weights.{items_left};
ghost use Rattle.lock_tree_laws.specs.Forest.{opened_of};

/// An item that is answered is one fewer, whatever else the step does. A transaction that begins, that comes to its end or ends with its
/// script, a step of the store, a death and a recovery bring a session nearer.
pub fn transactions_go_on()
    ensures answered { (k l s : ℕ) (c d : Beside) (m n : Member) → n.life ≡ m.life → items_left n < items_left m → Falls k l c d s m n }
    ensures steps { (k s : ℕ) (c d : Beside) (m : Member) → opened_of d.locks s ≡ opened_of c.locks s → d.steps s < c.steps s → Falls k k c d s m m }
    ensures begins { (k l s : ℕ) (c d : Beside) (item : Item) (left : List Item) (total : ℕ) (waits : Bool) → Falls k l c d s (session (item ∷ left) total Outside) (session left total (Writing (writer Closed nothing false waits (Working item Opening)))) }
    ensures opens { (k s : ℕ) (c d : Beside) (item : Item) (left : List Item) (total : ℕ) (standing : Standing) (known : Held) (spoken waits : Bool) → Falls k k c d s (session left total (Writing (writer standing known spoken waits (Working item Opening)))) (session left total (Writing (writer standing known spoken waits (Working item Due)))) }
    ensures takes_commit { (k l s : ℕ) (c : Beside) (item : Item) (left : List Item) (total : ℕ) (standing : Standing) (known : Held) (spoken waits : Bool) → Falls k l c c s (session (item ∷ left) total (Writing (writer standing known spoken waits Between))) (session left total (Writing (writer standing known spoken waits (Ending Preparing)))) }
    ensures prepares { (k s : ℕ) (c d : Beside) (left : List Item) (total : ℕ) (standing : Standing) (known : Held) (spoken waits : Bool) → Falls k k c d s (session left total (Writing (writer standing known spoken waits (Ending Preparing)))) (session left total (Writing (writer standing known spoken waits (Ending Journal)))) }
    ensures prepares_got { (k s : ℕ) (c d : Beside) (left : List Item) (total : ℕ) (standing : Standing) (known : Held) (spoken waits : Bool) → Falls k k c d s (session left total (Writing (writer standing known spoken waits (Ending Preparing)))) (session left total (Writing (writer standing known spoken waits (Ending Ready)))) }
    ensures commits { (k s : ℕ) (c d : Beside) (left : List Item) (total : ℕ) (standing : Standing) (known : Held) (spoken waits : Bool) → Falls k k c d s (session left total (Writing (writer standing known spoken waits (Ending Ready)))) (session left total (Writing (writer standing known spoken waits (Ending Committing)))) }
    ensures undoes { (k l s : ℕ) (c d : Beside) (item : Item) (left : List Item) (total : ℕ) (standing : Standing) (known : Held) (spoken waits : Bool) → Falls k l c d s (session (item ∷ left) total (Writing (writer standing known spoken waits Between))) (session left total (Writing (writer standing known spoken waits (Ending RollingBack)))) }
    ensures leaves { (k l s : ℕ) (c d : Beside) (total : ℕ) (standing : Standing) (known : Held) (spoken waits : Bool) → Falls k l c d s (session [] total (Writing (writer standing known spoken waits Between))) (session [] total (Writing (writer standing known spoken waits (Ending Leaving)))) }
    ensures over { (k s : ℕ) (c d : Beside) (left : List Item) (total : ℕ) (standing : Standing) (known : Held) (spoken waits : Bool) → Falls k k c d s (session left total (Writing (writer standing known spoken waits (Ending Leaving)))) (session left total Over) }
    ensures closes { (k s : ℕ) (c d : Beside) (left : List Item) (total : ℕ) → Falls k k c d s (session left total Closing) (session left total Outside) }
    ensures dies { (k l s : ℕ) (c d : Beside) (left : List Item) (total : ℕ) (x : Phase) → Falls k l c d s (session left total x) (dead_session left total x) }
    ensures recovered { (k l s : ℕ) (c d : Beside) (left : List Item) (total : ℕ) (x : Phase) → Falls k l c d s (dead_session left total x) (gone_session left total x) }
{}
