// What changes mean with some Dbkeys.
ghost use Rattle.std.specs.Prelude.{◌≡◌, ℕ, true, List, None};
ghost use Rattle.rdo_ast.specs.declared.reply.Reply.TheVariants.{AreaFull};
ghost use Rattle.rdo_ast.specs.declared.reply.Standing.{Standing as State};
ghost use Rattle.rdo_ast.specs.Tree.{Command, said};
ghost use Rattle.rdb_meaning.specs.declared.tables.Tables.{Tables as Kept};
ghost use Rattle.rdb_account.specs.Lawful.{Replaces, is_change};
ghost use Rattle.reached_changes.specs.Before.{refusal_before};

/// Where no standing, name, reservation or type refuses a change, some choice of Dbkeys gives it a reply that a full area may stand in
/// place of: it is done, or refused on its way by a value that doesn't fit, a text that is too long or a key that is taken.
pub fn changes_are_reached()
    ensures { (word : List ℕ) (standing : State) (t : Kept) (command : Command) (limit : ℕ) → refusal_before word command standing t ≡ None → is_change (said command) ≡ true → Replaces word standing t (said command) (AreaFull limit) }
{}
