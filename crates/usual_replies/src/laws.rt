// What items mean.
ghost use Rattle.std.specs.Prelude.{◌≡◌, ℕ, false, List};
ghost use Rattle.rdb_types.specs.declared.keys.Dbkey.{Dbkey as Place};
ghost use Rattle.rdo_ast.specs.declared.reply.Reply.{Reply as Answer};
ghost use Rattle.rdo_ast.specs.declared.reply.Standing.{Standing as State};
ghost use Rattle.rdo_ast.specs.Tree.{Uttered};
ghost use Rattle.rdb_meaning.specs.declared.tables.Tables.{Tables as Kept};
ghost use Rattle.rdb_meaning.specs.Meaning.{Does};
ghost use Rattle.rdb_meaning.specs.Usual.{is_refusal_of_means};

/// Whatever an item means over some tables, its reply isn't one that stands in place of what it means: locks, limits and memory give those alone.
pub fn no_item_means_a_refusal_of_means()
    ensures { (word : List ℕ) (standing : State) (item : Uttered) (choices : List Place) (t : Kept) (reply : Answer) (left : Kept) (behind : State) → Does word standing item choices t reply left behind → is_refusal_of_means reply ≡ false }
{}
