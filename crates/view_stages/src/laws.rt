// Laws of the work of a statement.
ghost use Rattle.std.specs.Prelude.{◌≡◌, ℕ, true, List, [], Some, None};
ghost use Rattle.rdo_ast.specs.declared.reply.Reply.{Reply as Answer};
ghost use Rattle.rdo_ast.specs.declared.reply.Reply.TheVariants as replies;
ghost use Rattle.rdo_ast.specs.declared.reply.Standing.{Standing as State};
ghost use Rattle.rdo_ast.specs.Tree.{Act, Command, perform};
ghost use Rattle.rdb_meaning.specs.declared.tables.Tables.{Tables as Kept};
ghost use Rattle.rdb_meaning.specs.Execution.{World, Ran, ran, and_then, done};
ghost use Rattle.rdb_meaning.specs.Meaning.{act_refusal, command_refusal, after};
ghost use Rattle.line_view.specs.Knowledge.{Knowledge, Lines, IsInOrder, Agrees};
ghost use Rattle.catalog.specs.declared.reading.Catalog.{Catalog as Directory};
ghost use Rattle.catalog.specs.Reading.{IsCatalogOf};
ghost use Rattle.sound_lines.specs.Contents.{AreTablesOf};
ghost use Rattle.sound_lines.specs.Sound.{IsSound};
ghost use Rattle.sound_changes.specs.Standing.{IsSoundAs};
ghost use Rattle.view_stages.specs.Stages.{Stage, Holds, Goes, refusing};
ghost use Rattle.view_stages.specs.Records.{IsRightOver, is_definition};
ghost use Rattle.line_view.specs.declared.writes.Write.{Write};
ghost use Rattle.line_view.specs.Writes.{laid_all};

/// Jobs are done in turn.
pub fn work_goes_on()
    ensures { (known : Knowledge) (c : Directory) (all : Lines) (start : Kept) (job next rest : World → Ran) (from mid to : Stage) (t : Kept)
        → Goes known c all start job ran from mid t → ((now : Kept) → Holds known c all start mid now → Goes known c all start next rest mid to now)
        → Goes known c all start (λ w. and_then (job w) next) rest from to t }
{}

/// Where an action came to its end, or was refused, the record of it is right.
pub fn a_record_is_right()
    ensures begins { (known : Knowledge) (c : Directory) (all : Lines) (t : Kept) → IsInOrder all → Agrees known all → IsCatalogOf all c → IsSound all → AreTablesOf all t → IsSoundAs all c t }
    ensures done { (known : Knowledge) (c : Directory) (word : List ℕ) (standing : State) (a : Act) (to : Stage) (all : Lines) (t : Kept) → act_refusal a standing t ≡ None
        → Goes known c all t (done a t []) ran (record { seen = known; writes = []; lines = []; given = [] }) to t
        → IsRightOver word standing (perform a) (record { choices = to.given; reply = replies.Done to.lines; writes = to.writes }) all t }
    ensures refused { (known : Knowledge) (c : Directory) (word : List ℕ) (standing : State) (a : Act) (reply : Answer) (to : Stage) (all : Lines) (t : Kept) → act_refusal a standing t ≡ None → IsSoundAs all c t
        → Goes known c all t (done a t []) (refusing reply) (record { seen = known; writes = []; lines = []; given = [] }) to t
        → IsRightOver word standing (perform a) (record { choices = to.given; reply = reply; writes = [] }) all t }
    ensures barred { (c : Directory) (word : List ℕ) (standing : State) (a : Act) (reply : Answer) (all : Lines) (t : Kept) → act_refusal a standing t ≡ Some reply → IsSoundAs all c t
        → IsRightOver word standing (perform a) (record { choices = []; reply = reply; writes = [] }) all t }
{}

/// The record of a definition or a deletion is right, where the map behind its writes is sound with the tables of the meaning, or where it is refused.
pub fn a_definition_is_right()
    ensures done { (c : Directory) (word : List ℕ) (standing : State) (command : Command) (writes : List Write) (all : Lines) (t : Kept) → is_definition command ≡ true → command_refusal word command standing t ≡ None
        → IsSoundAs (laid_all writes all) c (after command t)
        → IsRightOver word standing command (record { choices = []; reply = replies.Done []; writes = writes }) all t }
    ensures refused { (c : Directory) (word : List ℕ) (standing : State) (command : Command) (reply : Answer) (all : Lines) (t : Kept) → is_definition command ≡ true → command_refusal word command standing t ≡ Some reply
        → IsSoundAs all c t → IsRightOver word standing command (record { choices = []; reply = reply; writes = [] }) all t }
{}
