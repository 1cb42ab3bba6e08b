// A read-only transaction.
ghost use Rattle.std.specs.Prelude.{◌≡◌, ◌<◌, ◌+◌, ◌∷◌, ℕ, Bool, false, List, [], Some, slice_get};
ghost use Rattle.rdo_ast.specs.declared.reply.Standing.{Standing};
ghost use Rattle.rdo_ast.specs.declared.reply.Standing.TheVariants.{Closed};
ghost use Rattle.rdo_ast.specs.declared.syntax.Item.{Item};
ghost use Rattle.line_view.specs.Held.{Held, nothing};
ghost use Rattle.line_view.specs.declared.need.Need.{Need};
ghost use Rattle.session_states.specs.declared.stage.ReaderWork.TheVariants.{Due, Out, Copying};
ghost use Rattle.lock_tree_laws.specs.Forest.{opened_of};
ghost use Rattle.session_states.specs.declared.stage.ReaderStage.{ReaderStage};
ghost use Rattle.session_states.specs.declared.stage.ReaderStage.TheVariants.{Between, Working, Gathering};
ghost use Rattle.session_states.specs.declared.stage.Phase.TheVariants.{Outside, Reading, Over};
ghost use Rattle.session_states.specs.States.{reader, session};
ghost use Rattle.session_measure.specs.Weights.{Beside, Falls};

/// A read-only transaction begins, its statements are worked in rounds, and it ends with its script. What answers an item is one item fewer.
/// In a round the needs are read in turn, or passed over. An online backup begins one too, and goes on with the steps of the store.
pub fn readers_go_on()
    ensures begins { (k l s : ℕ) (c d : Beside) (item : Item) (left : List Item) (total : ℕ) → Falls k l c d s (session (item ∷ left) total Outside) (session left total (Reading (reader Closed nothing false (Working item Due)))) }
    ensures copies { (k l s : ℕ) (c d : Beside) (item : Item) (left : List Item) (total : ℕ) → Falls k l c d s (session (item ∷ left) total Outside) (session left total (Reading (reader Closed nothing false (Working item Copying)))) }
    ensures takes { (k l s : ℕ) (c : Beside) (item : Item) (left : List Item) (total : ℕ) (standing : Standing) (known : Held) (spoken : Bool) → Falls k l c c s (session (item ∷ left) total (Reading (reader standing known spoken Between))) (session left total (Reading (reader standing known spoken (Working item Due)))) }
    ensures hands_out { (k l s : ℕ) (c : Beside) (item : Item) (left : List Item) (total : ℕ) (standing : Standing) (known : Held) (spoken : Bool) → l < k → Falls k l c c s (session left total (Reading (reader standing known spoken (Working item Due)))) (session left total (Reading (reader standing known spoken (Working item Out)))) }
    ensures lacking { (k s : ℕ) (c : Beside) (item : Item) (left : List Item) (total : ℕ) (standing : Standing) (known : Held) (spoken : Bool) (n : Need) (later : List Need) → Falls k k c c s (session left total (Reading (reader standing known spoken (Working item Out)))) (session left total (Reading (reader standing known spoken (Gathering item n later 0)))) }
    ensures more { (k s : ℕ) (c d : Beside) (left : List Item) (total : ℕ) (standing : Standing) (known new : Held) (spoken : Bool) (stage : ReaderStage) → opened_of d.locks s ≡ opened_of c.locks s → d.steps s < c.steps s → Falls k k c d s (session left total (Reading (reader standing known spoken stage))) (session left total (Reading (reader standing new spoken stage))) }
    ensures read_on { (k s : ℕ) (c d : Beside) (item : Item) (left : List Item) (total : ℕ) (standing : Standing) (known new : Held) (spoken : Bool) (n m : Need) (later : List Need) (place : ℕ) → slice_get later place ≡ Some m → Falls k k c d s (session left total (Reading (reader standing known spoken (Gathering item n later place)))) (session left total (Reading (reader standing new spoken (Gathering item m later (place + 1))))) }
    ensures read { (k s : ℕ) (c d : Beside) (item : Item) (left : List Item) (total : ℕ) (standing : Standing) (known new : Held) (spoken : Bool) (n : Need) (later : List Need) (place : ℕ) → Falls k k c d s (session left total (Reading (reader standing known spoken (Gathering item n later place)))) (session left total (Reading (reader standing new spoken (Working item Due)))) }
    ensures leaves { (k l s : ℕ) (c d : Beside) (total : ℕ) (standing : Standing) (known : Held) (spoken : Bool) → Falls k l c d s (session [] total (Reading (reader standing known spoken Between))) (session [] total Over) }
{}
