ghost use Rattle.std.specs.Prelude.{◌≡◌, ◌≢◌, ◌⊎◌, ◌↔◌, ◌+◌, ◌<◌, ◌≤◌, ◌^◌, ℕ, true, false, None, Some, ◌++◌, length, map, [], All, IsTrue, IfOk};
ghost use Rattle.rdb_types.specs.declared.file.FileId.{FileId as File};
ghost use Rattle.rdb_types.specs.declared.keys.Limits.{Limits};
ghost use Rattle.rdb_outside.specs.Causes.{Rose};
ghost use Rattle.rdb_outside.specs.Disk.{Image, LeftNow, LeavesOnly, Keeps, OnlyReads};
ghost use Rattle.new_database.specs.Maker.{IsUnmade, HasRoot};
ghost use Rattle.new_database.specs.New.{IsNewDatabase, IsNewDatabaseOrNone};
ghost use Rattle.rdb_meaning.specs.declared.tables.Tables.{Tables};
ghost use Rattle.command_words.specs.declared.words.Scripts.{Scripts as GivenScripts};
ghost use Rattle.command_words.specs.declared.words.PagePlace.{PagePlace as GivenPage};
ghost use Rattle.command_words.specs.Copies.{copies_in};
ghost use Rattle.command_words.specs.Words.{command_of as command_for, word_of, order_in, only_reads, AreLast};
ghost use Rattle.script_streams.specs.Fronts.{WritesFront};
ghost use Rattle.rdb_drive.specs.Boards.{IsSession, MayDie};
ghost use Rattle.rdb_account.specs.Events.{event_of};
ghost use Rattle.rdb_account.specs.Legal.{IsLegal};
ghost use Rattle.workload_runs.specs.line_cluster.Deaths.{RoseBy, device_deaths, failures};
ghost use Rattle.workload_runs.specs.line_cluster.Sound.{FollowsScripts, MayFail, is_over_slot, is_unsound};
ghost use Rattle.workload_runs.specs.line_cluster.Turned.{HaveAllEnded};
ghost use Rattle.workload_runs.specs.line_drive.Boards.{mortals_of};
ghost use Rattle.workload_runs.specs.line_drive.Turns.{KeepsTurns};
ghost use Rattle.workload_runs.specs.line_runs.Backups.{HoldsBackups, IsFormer, LeavesBackups};
ghost use Rattle.workload_runs.specs.line_runs.Openings.{HasNoNumbers, HasSpent, OpensWith, said_to};
ghost use Rattle.workload_runs.specs.line_runs.Prefix.{HoldsAll, HoldsPrefix, StandsFor};
ghost use Rattle.backup_making.specs.Making.{file_of as backup_named};
ghost use Rattle.database_opening.specs.Others.{KeepsFile};
ghost use Rattle.journal_backup.specs.Copied.{copy_named};
ghost use Rattle.rmu_restore.specs.Laying.{IsOther};
ghost use Rattle.rmu_recover.specs.Recovering.{IsOther as IsBesideRoll};
ghost use Rattle.rmu_keeping.specs.Keeping.{is_keeping_status, IsKept, MayBeOpened, MayBeRestored, BacksUp, BacksUpWithin, CopiesJournal, CopiesJournalWithin, Restores, RestoresWithin};
ghost use Rattle.rmu_keeping.specs.Rolling.{is_recover_status, HasRolled, MayBeRecovered, LacksGroup, HasUnfit, IsUsed, Rolls, RollsWithin, TellsGroups};
ghost use Rattle.workload_runs.specs.rmu_commands.Usable.{HasRootInUse, IsUsable, IsDumped};
ghost use Rattle.workload_runs.specs.rmu_commands.Written.{HasText, Verifies, Dumps, DumpsPage, IsCleanDatabase, is_verify_status, is_dump_status};
ghost use Rattle.workload_replies.specs.Replies.{has_death};
ghost use Rattle.rdb_top.specs.Runs.{IsNoDatabase, IsRun, IsWhole, IsWritten, OfSomeScripts, is_workload, keeps_copies, rolls_forward, is_status, is_script_status, status_at, scripts_of, transcripts, sessions_of};
ghost use Rattle.rdb_top.specs.Deaths.{letting};
ghost use Rattle.rdb_top.specs.Workloads.{AreWorkloadRuns, LeavesAll, LeavesRuns};
ghost use Rattle.workload_runs.specs.Deaths.{HaveCauses, SomeDied};
ghost use Rattle.workload_runs.specs.Reports.{Reports};
ghost use Rattle.workload_runs.specs.Statuses.{is_unharmed, is_workload_status, have_death, stopped_status};

use crate::dying::Dying;
use crate::finishing::{Finish, finish_scripts, unsaid};
use crate::making::run_new;
use crate::recovering::run_recover;
use crate::scripts::read_scripts;
use crate::stopping::unwatched;
use crate::working::{Task, run_workload};
use command_words::{Command, Scripts, command_of, order_of};
use lent_values::{Naming, Opened};
use line_opening::OpeningFault;
use line_store::Fault;
use rdb_drive::Gate;
use rdb_outside::{Disk, Sink, Source};
use rdb_types::{Copied, Items, NoMemory, Word};
use rmu_keeping::{backup_command, journal_command, restore_command};
use script_streams::ReadStop;
use session_jobs::Statements;
use session_states::WholeScript;
use std::alloc::Global;
use std::marker::{Brand, Send};
use std::sync::Wait;
use std::thread::Threads;
use watched_disk::{Beginning, WatchedDisk};
use workload_runs::{
    FormerDisk, Halt, LineRun, Origin, ReservingStatements, Said, dump_command, page_command,
    say_in_order, say_in_threads, verify_command,
};

/// The words of a command that says scripts.
#[derive(Clone, Copy)]
struct Asked<'a> {
    words: &'a [Word],
    given: Scripts,
}

/// The database's word, and the sessions of the order.
#[derive(Drop)]
struct Named {
    word: Word,
    order: Items<u32>,
}

fn status_of(stop: ReadStop) -> u8
    ensures { result ≡ status_at stop }
{
    match stop {
        ReadStop::Failed => 2,
        ReadStop::OutOfMemory => 5,
        ReadStop::TooLong => 10,
    }
}

// Runs the sessions of an origin: by the order, where the words have one, else in threads. The disk is watched meanwhile.
fn run_of<
    R: Threads + Wait + Sync + AllocGlobal,
    O: Origin + Naming + Send,
    B: Beginning + FormerDisk + Send,
    D: Disk + Drop + Send,
    G: Gate + Sync,
>(rt: &R, disk: D, said: Said, given: Scripts, order: &[u32], gate: &G) -> LineRun<D>
    requires sessions { length said.scripts.items ≡ O.sessions }
    requires few { O.sessions ≤ 16 }
    requires short { All (λ script. length script.items < 2 ^ 32) said.scripts.items }
    requires scripts { FollowsScripts O.opening said.scripts.items }
    requires mortal { MayFail O.opening }
    requires entries { All (λ s. IsSession O.sessions s) order.now }
    requires word { said.word ≡ O.opening.word }
    requires mortals { MayDie (G.mortals gate.now) (mortals_of O.opening O.sessions) }
    requires opens { O.told → OpensWith ⟦<ReservingStatements as Statements>⟧.stands (D.view disk) O.opening }
    requires faults { O.told → O.faults ≡ (D.view disk).faults }
    requires began { B.faults ≡ (D.view disk).faults }
    requires former { IsFormer B.former (D.view disk) }
    requires desk { said.desk ≡ O.book }
    ensures legal { O.told → IsLegal O.opening (map event_of result.events) }
    ensures whole { O.told → result.is_whole ≡ true → HaveAllEnded O.opening O.sessions (map event_of result.events) }
    ensures order { given.has_order ≡ true → O.told → result.is_whole ≡ true → KeepsTurns O.opening O.sessions order.now result.events }
    ensures images { O.told → result.fault ≡ None → HoldsPrefix ⟦<ReservingStatements as Statements>⟧.stands O.opening (D.view result.disk) (map event_of result.events) }
    ensures backups { O.told → result.fault ≡ None → HoldsBackups ⟦<ReservingStatements as Statements>⟧.stands O.opening (D.view result.disk) (map event_of result.events) }
    ensures backups_before { O.told → result.fault ≡ None → LeavesBackups O.opening B.former (D.view result.disk) (map event_of result.events) }
    ensures left { O.told → result.is_whole ≡ true → HoldsAll ⟦<ReservingStatements as Statements>⟧.stands O.opening (D.view result.disk) (map event_of result.events) }
    ensures harmed { O.told → RoseBy (failures (map event_of result.events) result.halt) (D.view disk).faults (D.view result.disk).faults }
    ensures stopped { result.halt ≡ Some (Halt.Device Fault.Failed) → Rose (D.view disk).faults (D.view result.disk).faults }
    ensures agrees { O.told → is_unsound result.halt ≡ false }
    ensures used_up { O.told → is_over_slot result.halt ≡ true → HasSpent (D.view result.disk) }
    ensures unsaid { (result.fault ≡ None → ⊥) → result.events ≡ [] }
    ensures failed { result.fault ≡ Some OpeningFault.Failed → Rose (D.view disk).faults (D.view result.disk).faults }
    ensures bad { (file : File) (slot : ℕ) → result.fault ≡ Some (OpeningFault.Bad file slot) → HasNoNumbers (D.view disk) }
{
    let alloc = rt.alloc();
    let disk = WatchedDisk::<B, D>::new(disk);
    if given.has_order {
        unwatched(say_in_order::<O, B, WatchedDisk<B, D>, G>(alloc, disk, said, order, gate))
    } else {
        unwatched(say_in_threads::<R, O, B, WatchedDisk<B, D>, G>(rt, alloc, disk, said, gate))
    }
}

// What the words name.
fn named_by(alloc: Global, asked: Asked<'_>) -> Result<Named, NoMemory>
    requires row { command_for asked.words.now ≡ Some (Command.Rdo asked.given) }
    requires last { AreLast asked.words.now asked.given }
    ensures word { IfOk result (λ named. named.word ≡ word_of asked.entry.words.now) }
    ensures order { IfOk result (λ named. named.order ≡ order_in asked.entry.words.now) }
    ensures sessions { IfOk result (λ named. All (λ s. IsSession asked.entry.given.count s) named.order) }
{
    let order = order_of(alloc, asked.words)?;
    let word = asked.words[asked.given.first - 1].copied(alloc)?;
    Ok(Named { word, order })
}

// No memory was found before the database was opened.
fn unopened<D: Drop>(alloc: Global, disk: D) -> LineRun<D>
    ensures disk { result.disk ≡ disk }
    ensures events { result.events ≡ [] }
    ensures is_whole { result.is_whole ≡ false }
    ensures fault { result.fault ≡ Some OpeningFault.NoMemory }
    ensures halt { result.halt ≡ None }
{
    LineRun {
        disk,
        events: Items::new(alloc),
        is_whole: false,
        fault: Some(OpeningFault::NoMemory),
        halt: None,
    }
}

// Says the items of the scripts to the database that the words name. The disk holds what the origin names.
fn say_scripts<
    R: Threads + Wait + Sync + AllocGlobal,
    O: Origin,
    D: Disk + Drop + Send,
    G: Gate + Sync,
>(
    rt: &R,
    alloc: Global,
    asked: Asked<'_>,
    disk: D,
    scripts: Vec<WholeScript>,
    gate: &G,
) -> LineRun<D>
    requires row { command_for asked.words.now ≡ Some (Command.Rdo asked.given) }
    requires last { AreLast asked.words.now asked.given }
    requires mortal { MayFail O.opening }
    requires mortals { MayDie (G.mortals gate.now) (mortals_of O.opening asked.given.count) }
    requires count { length scripts.items ≡ asked.given.count }
    requires short { All (λ script. length script.items < 2 ^ 32) scripts.items }
    requires opens { O.told → OpensWith ⟦<ReservingStatements as Statements>⟧.stands (D.view disk) O.opening }
    ensures legal { O.told → IsLegal (said_to (letting asked.entry.given.death O.opening) (word_of asked.entry.words.now) scripts.items) (map event_of result.events) }
    ensures whole { O.told → result.is_whole ≡ true → HaveAllEnded (said_to (letting asked.entry.given.death O.opening) (word_of asked.entry.words.now) scripts.items) asked.entry.given.count (map event_of result.events) }
    ensures order { asked.entry.given.has_order ≡ true → O.told → result.is_whole ≡ true →
        KeepsTurns (said_to (letting asked.entry.given.death O.opening) (word_of asked.entry.words.now) scripts.items) asked.entry.given.count (order_in asked.entry.words.now) result.events }
    ensures images { O.told → result.fault ≡ None → HoldsPrefix ⟦<ReservingStatements as Statements>⟧.stands (said_to (letting asked.entry.given.death O.opening) (word_of asked.entry.words.now) scripts.items) (D.view result.disk) (map event_of result.events) }
    ensures backups { O.told → result.fault ≡ None → HoldsBackups ⟦<ReservingStatements as Statements>⟧.stands (said_to (letting asked.entry.given.death O.opening) (word_of asked.entry.words.now) scripts.items) (D.view result.disk) (map event_of result.events) }
    ensures backups_before { O.told → result.fault ≡ None → LeavesBackups (said_to (letting asked.entry.given.death O.opening) (word_of asked.entry.words.now) scripts.items) (D.view disk) (D.view result.disk) (map event_of result.events) }
    ensures left { O.told → result.is_whole ≡ true → HoldsAll ⟦<ReservingStatements as Statements>⟧.stands (said_to (letting asked.entry.given.death O.opening) (word_of asked.entry.words.now) scripts.items) (D.view result.disk) (map event_of result.events) }
    ensures harmed { O.told → RoseBy (failures (map event_of result.events) result.halt) (D.view disk).faults (D.view result.disk).faults }
    ensures stopped { result.halt ≡ Some (Halt.Device Fault.Failed) → Rose (D.view disk).faults (D.view result.disk).faults }
    ensures agrees { O.told → is_unsound result.halt ≡ false }
    ensures used_up { O.told → is_over_slot result.halt ≡ true → HasSpent (D.view result.disk) }
    ensures unsaid { (result.fault ≡ None → ⊥) → result.events ≡ [] }
    ensures failed { result.fault ≡ Some OpeningFault.Failed → Rose (D.view disk).faults (D.view result.disk).faults }
    ensures bad { (file : File) (slot : ℕ) → result.fault ≡ Some (OpeningFault.Bad file slot) → HasNoNumbers (D.view disk) }
{
    let given = asked.given;
    match named_by(alloc, asked) {
        Err(_) => unopened(alloc, disk),
        Ok(Named { word, order }) => run_of::<R, Brand, Brand, D, Dying<'_, G>>(
            rt,
            disk,
            Said {
                word,
                scripts,
                desk: Opened::new(),
            },
            given,
            order.as_slice(),
            &Dying::of(given.death, gate),
        ),
    }
}

// Reads the scripts, says them to the database and writes what was answered.
fn run_rdo<
    R: Threads + Wait + Sync + AllocGlobal,
    O: Origin,
    D: Disk + Drop + Send,
    S: Source,
    K: Sink,
    G: Gate + Sync,
>(rt: &R, asked: Asked<'_>, disk: D, scripts: &mut S, out: &mut K, gate: &G) -> Finish<D>
    requires row { command_for asked.words.now ≡ Some (Command.Rdo asked.given) }
    requires last { AreLast asked.words.now asked.given }
    requires mortal { MayFail O.opening }
    requires mortals { MayDie (G.mortals gate.now) (mortals_of O.opening asked.given.count) }
    requires opens { O.told → OpensWith ⟦<ReservingStatements as Statements>⟧.stands (D.view disk) O.opening }
    ensures earlier { result.earlier ≡ [] }
    ensures status { is_script_status result.status ≡ true }
    ensures source { result.status ≡ 2 → Rose (S.faults scripts.old) (S.faults scripts.new) }
    ensures device { result.status ≡ 3 → Rose (D.view disk).faults (D.view result.disk).faults }
    ensures refused { result.status ≡ 4 → IsNoDatabase (D.view disk) result.halt }
    ensures halted { (why : Halt) → result.halt ≡ Some why → result.status ≡ stopped_status (Some why) }
    ensures agrees { O.told → is_unsound result.halt ≡ false }
    ensures used_up { O.told → is_over_slot result.halt ≡ true → HasSpent (D.view result.disk) }
    ensures sink { result.status ≡ 6 → Rose (K.faults out.old) (K.faults out.new) }
    ensures long { S.tells scripts.old ≡ true → result.status ≡ 10 → (s : ℕ) × IsSession asked.entry.given.count s × (1048576 < length (S.left scripts.old s)) }
    ensures too_long { S.tells scripts.old ≡ true → (s : ℕ) → IsSession asked.entry.given.count s → 1048576 < length (S.left scripts.old s) →
        (result.status ≡ 2) ⊎ (result.status ≡ 5) ⊎ (result.status ≡ 10) }
    ensures unread { (result.status ≡ 2) ⊎ (result.status ≡ 10) → result.events ≡ [] }
    ensures died { result.status ≡ 8 → has_death result.events ≡ true }
    ensures lived { result.status ≡ 0 → has_death result.events ≡ false }
    ensures harmed { O.told → RoseBy (device_deaths (map event_of result.events)) (D.view disk).faults (D.view result.disk).faults }
    ensures stopped { O.told → result.status ≡ 3 → RoseBy (device_deaths (map event_of result.events) + 1) (D.view disk).faults (D.view result.disk).faults }
    ensures account { O.told → OfSomeScripts asked.entry.given.count (S.tells scripts.old ≡ true) (scripts_of (S.left scripts.old) asked.entry.given.count)
        (IsRun O.opening (word_of asked.entry.words.now) asked.entry.given (order_in asked.entry.words.now) result.status result.events) }
    ensures legal { O.told → S.tells scripts.old ≡ true →
        IsLegal (said_to (letting asked.entry.given.death O.opening) (word_of asked.entry.words.now) (scripts_of (S.left scripts.old) asked.entry.given.count)) (map event_of result.events) }
    ensures whole { O.told → S.tells scripts.old ≡ true → IsWhole result.status →
        HaveAllEnded (said_to (letting asked.entry.given.death O.opening) (word_of asked.entry.words.now) (scripts_of (S.left scripts.old) asked.entry.given.count)) asked.entry.given.count (map event_of result.events) }
    ensures order { asked.entry.given.has_order ≡ true → O.told → S.tells scripts.old ≡ true → IsWhole result.status →
        KeepsTurns (said_to (letting asked.entry.given.death O.opening) (word_of asked.entry.words.now) (scripts_of (S.left scripts.old) asked.entry.given.count)) asked.entry.given.count (order_in asked.entry.words.now) result.events }
    ensures images { O.told → S.tells scripts.old ≡ true → (result.events ≡ [] → ⊥) →
        HoldsPrefix ⟦<ReservingStatements as Statements>⟧.stands (said_to (letting asked.entry.given.death O.opening) (word_of asked.entry.words.now) (scripts_of (S.left scripts.old) asked.entry.given.count)) (D.view result.disk) (map event_of result.events) }
    ensures backups { O.told → S.tells scripts.old ≡ true → (result.events ≡ [] → ⊥) →
        HoldsBackups ⟦<ReservingStatements as Statements>⟧.stands (said_to (letting asked.entry.given.death O.opening) (word_of asked.entry.words.now) (scripts_of (S.left scripts.old) asked.entry.given.count)) (D.view result.disk) (map event_of result.events) }
    ensures backups_before { O.told → S.tells scripts.old ≡ true → (result.events ≡ [] → ⊥) →
        LeavesBackups (said_to (letting asked.entry.given.death O.opening) (word_of asked.entry.words.now) (scripts_of (S.left scripts.old) asked.entry.given.count)) (D.view disk) (D.view result.disk) (map event_of result.events) }
    ensures left { O.told → S.tells scripts.old ≡ true → IsWhole result.status →
        HoldsAll ⟦<ReservingStatements as Statements>⟧.stands (said_to (letting asked.entry.given.death O.opening) (word_of asked.entry.words.now) (scripts_of (S.left scripts.old) asked.entry.given.count)) (D.view result.disk) (map event_of result.events) }
    ensures written { K.tells out.old ≡ true → IsWritten result.status → K.taken out.new ≡ K.taken out.old ++ transcripts asked.entry.given.count result.events }
    ensures front { K.tells out.old ≡ true → WritesFront (K.taken out.old) (K.taken out.new) (transcripts asked.entry.given.count result.events) }
{
    let alloc = rt.alloc();
    match read_scripts(alloc, scripts, asked.given.count) {
        Err(stop) => unsaid(alloc, status_of(stop), disk),
        Ok(items) => {
            let sessions = asked.given.count;
            let ran = say_scripts::<R, O, D, G>(rt, alloc, asked, disk, items, gate);
            finish_scripts(alloc, ran, sessions, out)
        }
    }
}

/// Runs a command: `NEW` makes a database, `RDO` says 1 to 16 scripts to a database, each by a session of its own, `RMU/VERIFY` lists the faults of a database, `RMU/DUMP` and `RMU/DUMP/PAGE` tell what it holds, `RMU/BACKUP` and `RMU/BACKUP/AFTER_JOURNAL` copy a database and its journal, `RMU/RESTORE` makes a database of a backup, `RMU/RECOVER` rolls it forward over its journals, and `WORKLOAD` makes a database, has sessions of its own work in it and verifies it.
pub fn run<R, O, D, S, K, G>(
    rt: &R,
    words: &[Word],
    disk: D,
    scripts: &mut S,
    out: &mut K,
    gate: &G,
) -> Finish<D>
where
    R: Threads + Wait + Sync + AllocGlobal,
    O: Origin,
    D: Disk + Drop + Send,
    S: Source,
    K: Sink,
    G: Gate + Sync,
    // The origin tells what the disk holds: an image whose lines stand for its tables.
    requires opens { O.told → OpensWith ⟦<ReservingStatements as Statements>⟧.stands (D.view disk) O.opening }
    // The gate has a session die only where the origin lets it.
    requires mortal { MayFail O.opening }
    requires mortals { (given : GivenScripts) → command_for words.now ≡ Some (Command.Rdo given) → MayDie (G.mortals gate.now) (mortals_of O.opening given.count) }
    ensures earlier { is_workload (command_for words.now) ≡ false → result.earlier ≡ [] }
    ensures status { is_status result.status ≡ true }
    // The words are in no row of the table.
    ensures words { result.status ≡ 1 ↔ command_for words.now ≡ None }
    // A call on the source failed in this run.
    ensures source { result.status ≡ 2 → Rose (S.faults scripts.old) (S.faults scripts.new) }
    // A device call failed in this run.
    ensures device { result.status ≡ 3 → Rose (D.view disk).faults (D.view result.disk).faults }
    // A call on the sink failed in this run.
    ensures sink { result.status ≡ 6 → Rose (K.faults out.old) (K.faults out.new) }
    // Some session's script is too long.
    ensures long { S.tells scripts.old ≡ true → result.status ≡ 10 → (s : ℕ) × IsSession (sessions_of (command_for words.now)) s × (1048576 < length (S.left scripts.old s)) }
    ensures too_long { S.tells scripts.old ≡ true → (s : ℕ) → IsSession (sessions_of (command_for words.now)) s → 1048576 < length (S.left scripts.old s) →
        (result.status ≡ 2) ⊎ (result.status ≡ 5) ⊎ (result.status ≡ 10) }
    // There are scripts, those of the source where it tells them, for which the account is that of a run of them.
    ensures account { (given : GivenScripts) → command_for words.now ≡ Some (Command.Rdo given) → O.told →
        OfSomeScripts given.count (S.tells scripts.old ≡ true) (scripts_of (S.left scripts.old) given.count)
        (IsRun O.opening (word_of words.now) given (order_in words.now) result.status result.events) }
    // The account is legal: it says the scripts' items, each answered as one thread in the order of the commits answers it, or
    // refused for a cause that stands. It begins with the tables for which the disk's lines stand.
    ensures legal { (given : GivenScripts) → command_for words.now ≡ Some (Command.Rdo given) → O.told → S.tells scripts.old ≡ true →
        IsLegal (said_to (letting given.death O.opening) (word_of words.now) (scripts_of (S.left scripts.old) given.count)) (map event_of result.events) }
    // Every session that lived came to its script's end, and who died was recovered.
    ensures whole { (given : GivenScripts) → command_for words.now ≡ Some (Command.Rdo given) → O.told → S.tells scripts.old ≡ true → IsWhole result.status →
        HaveAllEnded (said_to (letting given.death O.opening) (word_of words.now) (scripts_of (S.left scripts.old) given.count)) given.count (map event_of result.events) }
    // Some session died, or none.
    ensures died { result.status ≡ 8 → has_death result.events ≡ true }
    ensures lived { (given : GivenScripts) → command_for words.now ≡ Some (Command.Rdo given) → result.status ≡ 0 → has_death result.events ≡ false }
    // As many device calls failed in this run as sessions died of a device, and under status 3 one more.
    ensures harmed { (given : GivenScripts) → command_for words.now ≡ Some (Command.Rdo given) → O.told → RoseBy (device_deaths (map event_of result.events)) (D.view disk).faults (D.view result.disk).faults }
    ensures stopped { (given : GivenScripts) → command_for words.now ≡ Some (Command.Rdo given) → O.told → result.status ≡ 3 → RoseBy (device_deaths (map event_of result.events) + 1) (D.view disk).faults (D.view result.disk).faults }
    // The events keep to the order that the words name.
    ensures order { (given : GivenScripts) → command_for words.now ≡ Some (Command.Rdo given) → given.has_order ≡ true → O.told → S.tells scripts.old ≡ true → IsWhole result.status →
        KeepsTurns (said_to (letting given.death O.opening) (word_of words.now) (scripts_of (S.left scripts.old) given.count)) given.count (order_in words.now) result.events }
    // Where something happened, whatever the status: opening can start from each image that a crash may leave now, and it stands for
    // the tables of all commits, or for those with the one in flight; what one might have left since the k-th commit stands for that
    // or a later one.
    ensures images { (given : GivenScripts) → command_for words.now ≡ Some (Command.Rdo given) → O.told → S.tells scripts.old ≡ true → (result.events ≡ [] → ⊥) →
        HoldsPrefix ⟦<ReservingStatements as Statements>⟧.stands (said_to (letting given.death O.opening) (word_of words.now) (scripts_of (S.left scripts.old) given.count)) (D.view result.disk) (map event_of result.events) }
    // An online backup that was answered as done counts as long as no backup of its number was begun since: each image that a crash
    // might have left since then has it whole, of lines that stand for the tables that its reader saw. With the groups laid over them
    // that the image's journal has above the backup's last one, they give what the image stands for, where the journal's header
    // numbers its groups from 1 on.
    ensures backups { (given : GivenScripts) → command_for words.now ≡ Some (Command.Rdo given) → O.told → S.tells scripts.old ≡ true → (result.events ≡ [] → ⊥) →
        HoldsBackups ⟦<ReservingStatements as Statements>⟧.stands (said_to (letting given.death O.opening) (word_of words.now) (scripts_of (S.left scripts.old) given.count)) (D.view result.disk) (map event_of result.events) }
    // Each backup that stood whole before, whoever made it, and that rolled forward gave what the disk stood for, does so behind it, in
    // each image that a crash might have left, where the database was in use and no session began a backup of its number.
    ensures backups_before { (given : GivenScripts) → command_for words.now ≡ Some (Command.Rdo given) → O.told → S.tells scripts.old ≡ true → (result.events ≡ [] → ⊥) →
        LeavesBackups (said_to (letting given.death O.opening) (word_of words.now) (scripts_of (S.left scripts.old) given.count)) (D.view disk) (D.view result.disk) (map event_of result.events) }
    // Where every session that lived came to its end, for the tables of all commits.
    ensures left { (given : GivenScripts) → command_for words.now ≡ Some (Command.Rdo given) → O.told → S.tells scripts.old ≡ true → IsWhole result.status →
        HoldsAll ⟦<ReservingStatements as Statements>⟧.stands (said_to (letting given.death O.opening) (word_of words.now) (scripts_of (S.left scripts.old) given.count)) (D.view result.disk) (map event_of result.events) }
    // What was written are the transcripts in the order of the sessions, or a front of them, but for the commands that write what they read or how far they rolled.
    ensures written { only_reads (command_for words.now) ≡ false → rolls_forward (command_for words.now) ≡ false → is_workload (command_for words.now) ≡ false → K.tells out.old ≡ true → IsWritten result.status →
        K.taken out.new ≡ K.taken out.old ++ transcripts (sessions_of (command_for words.now)) result.events }
    ensures front { only_reads (command_for words.now) ≡ false → rolls_forward (command_for words.now) ≡ false → is_workload (command_for words.now) ≡ false → K.tells out.old ≡ true →
        WritesFront (K.taken out.old) (K.taken out.new) (transcripts (sessions_of (command_for words.now)) result.events) }
    // Every crash behind NEW leaves the new database.
    ensures made { (limits : Limits) → command_for words.now ≡ Some (Command.New limits) → result.status ≡ 0 →
        IsTrue (D.view disk).tells → IsUnmade (D.view disk) →
        (image : Image) → LeftNow (D.view result.disk) image → IsNewDatabase limits image }
    // A crash at any moment of NEW leaves no database, where it can be called again, or the new one.
    ensures any_moment { (limits : Limits) → command_for words.now ≡ Some (Command.New limits) →
        IsTrue (D.view disk).tells → IsUnmade (D.view disk) →
        LeavesOnly (D.view disk) (D.view result.disk) (IsNewDatabaseOrNone limits) }
    // There is a database already, and then it stays as it is.
    ensures taken { result.status ≡ 9 → IsTrue (D.view disk).tells → HasRoot (D.view disk).content }
    ensures standing { (limits : Limits) → command_for words.now ≡ Some (Command.New limits) →
        IsTrue (D.view disk).tells → HasRoot (D.view disk).content → ((result.status ≡ 0 → ⊥) × Keeps (D.view disk) (D.view result.disk)) }
    // Words in no row touch nothing.
    ensures untouched { command_for words.now ≡ None → result.disk ≡ disk }
    // Nothing is said where no script is run.
    ensures unsaid { (command_for words.now ≡ None) ⊎ ((limits : Limits) × (command_for words.now ≡ Some (Command.New limits))) → result.events ≡ [] }
    // Nothing is said where a script wasn't read.
    ensures unread { (result.status ≡ 2) ⊎ (result.status ≡ 10) → result.events ≡ [] }
    // The statuses of scripts.
    ensures statuses { (given : GivenScripts) → command_for words.now ≡ Some (Command.Rdo given) → is_script_status result.status ≡ true }
    // The statuses of NEW.
    ensures new_statuses { (limits : Limits) → command_for words.now ≡ Some (Command.New limits) →
        (result.status ≡ 0) ⊎ (result.status ≡ 3) ⊎ (result.status ≡ 9) }
    // VERIFY writes the faults that the database has and how many there are; status 7 says that there are some.
    ensures verifies { command_for words.now ≡ Some Command.Verify →
        Verifies (D.view disk) result.status (K.tells out.old ≡ true) (K.taken out.old) (K.taken out.new) }
    // Status 0 of VERIFY means that all pages pass their decoders, owners agree and the lines are sound.
    ensures clean { command_for words.now ≡ Some Command.Verify → result.status ≡ 0 →
        IsTrue (D.view disk).tells → IsCleanDatabase (D.view disk).content }
    // Over files that stand for tables, as sessions leave them, VERIFY finds no fault.
    ensures faultless { command_for words.now ≡ Some Command.Verify → IsTrue (D.view disk).tells →
        (tables : Tables) → StandsFor ⟦<ReservingStatements as Statements>⟧.stands tables (D.view disk).content → result.status ≡ 7 → ⊥ }
    // DUMP writes what the database is and holds.
    ensures dumps { command_for words.now ≡ Some Command.Dump →
        Dumps (D.view disk) result.status (K.tells out.old ≡ true) (K.taken out.old) (K.taken out.new) }
    // DUMP/PAGE writes the bytes of the page.
    ensures dumps_page { (place : GivenPage) → command_for words.now ≡ Some (Command.DumpPage place) →
        DumpsPage (D.view disk) place.file place.page result.status (K.tells out.old ≡ true) (K.taken out.old) (K.taken out.new) }
    // VERIFY and DUMP change nothing, at any moment.
    ensures reads { only_reads (command_for words.now) ≡ true → OnlyReads (D.view disk) (D.view result.disk) }
    // Some fault is listed.
    ensures faults { result.status ≡ 7 → (command_for words.now ≡ Some Command.Verify) ⊎ (is_workload (command_for words.now) ≡ true) }
    // A database can't be read or opened.
    ensures unread_root { result.status ≡ 4 → (only_reads (command_for words.now) ≡ true) ⊎ (keeps_copies (command_for words.now) ≡ true)
        ⊎ (rolls_forward (command_for words.now) ≡ true) ⊎ ((given : GivenScripts) × (command_for words.now ≡ Some (Command.Rdo given)))
        ⊎ (is_workload (command_for words.now) ≡ true) }
    // Scripts: a database that a crash of this engine may leave is opened, but where its numbers are used up, and its sessions are
    // stopped only over a slot, or a line.
    ensures refused { (given : GivenScripts) → command_for words.now ≡ Some (Command.Rdo given) → result.status ≡ 4 → IsNoDatabase (D.view disk) result.halt }
    // Sessions that were stopped have the status of what stopped them.
    ensures halted { (why : Halt) → result.halt ≡ Some why → result.status ≡ stopped_status (Some why) }
    // Over a disk whose lines stand for tables none are stopped over a line.
    ensures agrees { O.told → is_unsound result.halt ≡ false }
    // They are stopped over a slot only where each root that a crash may leave has used up the numbers of transactions.
    ensures used_up { O.told → is_over_slot result.halt ≡ true → HasSpent (D.view result.disk) }
    // VERIFY: its root isn't one in use, or the header of a journal is none.
    ensures unverified { command_for words.now ≡ Some Command.Verify → result.status ≡ 4 →
        IsTrue (D.view disk).tells → IsUsable (D.view disk).content → ⊥ }
    // DUMP: so it is, or a page or the catalog is none.
    ensures undumped { command_for words.now ≡ Some Command.Dump → result.status ≡ 4 →
        IsTrue (D.view disk).tells → IsDumped (D.view disk).content → ⊥ }
    // DUMP/PAGE: its root isn't one in use.
    ensures unpaged { (place : GivenPage) → command_for words.now ≡ Some (Command.DumpPage place) → result.status ≡ 4 →
        IsTrue (D.view disk).tells → HasRootInUse (D.view disk).content → ⊥ }
    // Nothing is said by commands that only read.
    ensures silent { only_reads (command_for words.now) ≡ true → result.events ≡ [] }
    // The statuses of VERIFY and DUMP.
    ensures verify_statuses { command_for words.now ≡ Some Command.Verify → is_verify_status result.status ≡ true }
    ensures dump_statuses { command_for words.now ≡ Some Command.Dump → is_dump_status result.status ≡ true }
    ensures page_statuses { (place : GivenPage) → command_for words.now ≡ Some (Command.DumpPage place) → is_dump_status result.status ≡ true }
    // Every crash behind BACKUP leaves the database with its lines, and their whole backup, which rolled forward gives what the image stands for.
    ensures backed_up { (number : ℕ) → command_for words.now ≡ Some (Command.Backup number) → result.status ≡ 0 →
        IsTrue (D.view disk).tells → BacksUp (D.view disk) (D.view result.disk) number }
    // A crash at any moment of BACKUP leaves the database with its lines, and the backup that stood before, none, or the new one.
    ensures backing { (number : ℕ) → command_for words.now ≡ Some (Command.Backup number) →
        IsTrue (D.view disk).tells → BacksUpWithin (D.view disk) (D.view result.disk) number }
    // BACKUP leaves the other backups and the copies of the journal as they were, at every moment.
    ensures beside_backup { (number : ℕ) → command_for words.now ≡ Some (Command.Backup number) →
        IsTrue (D.view disk).tells → (file : File) → IsKept file → file ≢ backup_named number → KeepsFile file (D.view disk) (D.view result.disk) }
    // BACKUP: a database that a crash of this engine may leave is opened, but where its numbers are used up.
    ensures no_backup { (number : ℕ) → command_for words.now ≡ Some (Command.Backup number) → result.status ≡ 4 →
        IsTrue (D.view disk).tells → MayBeOpened (D.view disk).content → ⊥ }
    // Every crash behind BACKUP/AFTER_JOURNAL leaves the database with its lines, and the groups of its journal in the copy alone.
    ensures copied { (number : ℕ) → command_for words.now ≡ Some (Command.BackupJournal number) → result.status ≡ 0 →
        IsTrue (D.view disk).tells → CopiesJournal (D.view disk) (D.view result.disk) number }
    // A crash at any moment of it leaves the database with its lines, and each group in the journal or in its copy.
    ensures copying { (number : ℕ) → command_for words.now ≡ Some (Command.BackupJournal number) →
        IsTrue (D.view disk).tells → CopiesJournalWithin (D.view disk) (D.view result.disk) number }
    // It leaves the backups and the other copies as they were, at every moment.
    ensures beside_copy { (number : ℕ) → command_for words.now ≡ Some (Command.BackupJournal number) →
        IsTrue (D.view disk).tells → (file : File) → IsKept file → file ≢ copy_named number → KeepsFile file (D.view disk) (D.view result.disk) }
    // It opens the database as BACKUP does.
    ensures no_copy { (number : ℕ) → command_for words.now ≡ Some (Command.BackupJournal number) → result.status ≡ 4 →
        IsTrue (D.view disk).tells → MayBeOpened (D.view disk).content → ⊥ }
    // Every crash behind RESTORE leaves a database that stands for the lines of the backup.
    ensures restored { (number : ℕ) → command_for words.now ≡ Some (Command.Restore number) → result.status ≡ 0 →
        IsTrue (D.view disk).tells → Restores (D.view disk) (D.view result.disk) number }
    // A crash at any moment of RESTORE leaves what one before might have left, an unfinished restore, or the restored database.
    ensures restoring { (number : ℕ) → command_for words.now ≡ Some (Command.Restore number) →
        IsTrue (D.view disk).tells → RestoresWithin (D.view disk) (D.view result.disk) number }
    // RESTORE leaves the journal, its copies and the backups as they were, at every moment.
    ensures beside_restore { (number : ℕ) → command_for words.now ≡ Some (Command.Restore number) →
        IsTrue (D.view disk).tells → (file : File) → IsOther file → KeepsFile file (D.view disk) (D.view result.disk) }
    // RESTORE: the backup isn't whole, or the journal isn't one that a database in use left.
    ensures no_restore { (number : ℕ) → command_for words.now ≡ Some (Command.Restore number) → result.status ≡ 4 →
        IsTrue (D.view disk).tells → MayBeRestored (D.view disk).content number → ⊥ }
    // Nothing is said by these three, and their statuses.
    ensures copies_silent { keeps_copies (command_for words.now) ≡ true → result.events ≡ [] }
    ensures copies_statuses { keeps_copies (command_for words.now) ≡ true → is_keeping_status result.status ≡ true }
    // Every crash behind RECOVER leaves a database in use that stands for the lines of the backup with the groups of its journals laid over them.
    ensures rolled { rolls_forward (command_for words.now) ≡ true → HasRolled result.status →
        IsTrue (D.view disk).tells → Rolls (D.view disk) (D.view result.disk) (copies_in words.now) }
    // A crash at any moment of RECOVER leaves what one before might have left, an image from which it gives the same again, or that.
    ensures rolling { rolls_forward (command_for words.now) ≡ true →
        IsTrue (D.view disk).tells → RollsWithin (D.view disk) (D.view result.disk) (copies_in words.now) }
    // RECOVER writes how many groups it laid.
    ensures counts { rolls_forward (command_for words.now) ≡ true →
        TellsGroups (D.view disk) (copies_in words.now) result.status (K.tells out.old ≡ true) (K.taken out.old) (K.taken out.new) }
    // RECOVER leaves the journal, its copies, the backups and the undo journals as they were, at every moment.
    ensures beside_roll { rolls_forward (command_for words.now) ≡ true →
        IsTrue (D.view disk).tells → (file : File) → IsBesideRoll file → KeepsFile file (D.view disk) (D.view result.disk) }
    // RECOVER: journals that follow on, with groups that fit, are never refused, and neither is a database in use.
    ensures no_roll { rolls_forward (command_for words.now) ≡ true → result.status ≡ 4 →
        IsTrue (D.view disk).tells → MayBeRecovered (D.view disk) (copies_in words.now) ⊎ IsUsed (D.view disk).content → ⊥ }
    // Where a group is missing RECOVER isn't carried out and changes nothing.
    ensures lacking { rolls_forward (command_for words.now) ≡ true → IsTrue (D.view disk).tells → LacksGroup (D.view disk) (copies_in words.now) →
        (HasRolled result.status → ⊥) × OnlyReads (D.view disk) (D.view result.disk) }
    // Where a line of the groups doesn't fit the page that it meets, RECOVER isn't carried out either (it ends with 4, if no device call fails and no memory is wanted), and leaves the disk as it was.
    ensures unfitting { rolls_forward (command_for words.now) ≡ true → IsTrue (D.view disk).tells → HasUnfit (D.view disk) (copies_in words.now) →
        (HasRolled result.status → ⊥) × OnlyReads (D.view disk) (D.view result.disk) }
    // A database in use is left as it is.
    ensures rolled_before { rolls_forward (command_for words.now) ≡ true → IsTrue (D.view disk).tells → IsUsed (D.view disk).content →
        OnlyReads (D.view disk) (D.view result.disk) }
    // Nothing is said by RECOVER, and its statuses.
    ensures roll_silent { rolls_forward (command_for words.now) ≡ true → result.events ≡ [] }
    ensures roll_statuses { rolls_forward (command_for words.now) ≡ true → is_recover_status result.status ≡ true }
    // WORKLOAD: the accounts, earlier ones and the last, are those of runs of its scripts, one after another. Each is legal; the first
    // begins with no tables, each next one with those that the one before has committed; all sessions of each but the last came to
    // their ends. Who dies is a session whose device call fails, or one that the gate names.
    ensures workload_runs { (accounts : ℕ) → command_for words.now ≡ Some (Command.Workload accounts) → IsTrue (D.view disk).tells → IsUnmade (D.view disk) →
        AreWorkloadRuns words.now (G.mortals gate.now) accounts result.status result.earlier result.events }
    // There are three where there is a report, and nobody died in them.
    ensures workload_three { is_workload (command_for words.now) ≡ true → HasText result.status → length result.earlier ≡ 2 }
    ensures workload_lived { is_workload (command_for words.now) ≡ true → HasText result.status → (have_death result.earlier ≡ false) × (has_death result.events ≡ false) }
    // Who died in the last one did so of a device call that failed in this run, of the gate, which names it, or for want of memory; under
    // status 8 somebody did. So where no device call failed and the gate names nobody, it was for want of memory.
    ensures workload_causes { is_workload (command_for words.now) ≡ true → IsTrue (D.view disk).tells → IsUnmade (D.view disk) →
        HaveCauses (G.mortals gate.now) (Rose (D.view disk).faults (D.view result.disk).faults) (map event_of result.events) }
    ensures workload_fallen { is_workload (command_for words.now) ≡ true → IsTrue (D.view disk).tells → IsUnmade (D.view disk) → result.status ≡ 8 →
        SomeDied (G.mortals gate.now) (Rose (D.view disk).faults (D.view result.disk).faults) (map event_of result.events) }
    // It writes what the last run has counted, and how many faults the database has; status 7 says that there are some.
    ensures workload_reports { is_workload (command_for words.now) ≡ true →
        Reports (D.view result.disk) result.events result.status (K.tells out.old ≡ true) (K.taken out.old) (K.taken out.new) }
    // As many device calls failed in it as sessions died of a device, and under status 3 one more.
    ensures workload_harmed { is_workload (command_for words.now) ≡ true → IsTrue (D.view disk).tells → IsUnmade (D.view disk) →
        RoseBy (device_deaths (map event_of result.events)) (D.view disk).faults (D.view result.disk).faults }
    ensures workload_stopped { is_workload (command_for words.now) ≡ true → IsTrue (D.view disk).tells → IsUnmade (D.view disk) → result.status ≡ 3 →
        RoseBy (device_deaths (map event_of result.events) + 1) (D.view disk).faults (D.view result.disk).faults }
    // It leaves a database that there is as it is.
    ensures workload_standing { is_workload (command_for words.now) ≡ true → IsTrue (D.view disk).tells → HasRoot (D.view disk).content →
        ((result.status ≡ 3) ⊎ (result.status ≡ 5) ⊎ (result.status ≡ 9)) × Keeps (D.view disk) (D.view result.disk) }
    // A crash leaves a prefix of the account of the last of its runs, which begins with the tables that the run before has committed, or all
    // of it. Where none was begun, it leaves no database or a new one, or one without tables.
    ensures workload_images { (accounts : ℕ) → command_for words.now ≡ Some (Command.Workload accounts) → IsTrue (D.view disk).tells → IsUnmade (D.view disk) →
        LeavesRuns ⟦<ReservingStatements as Statements>⟧.stands words.now (G.mortals gate.now) accounts (D.view disk) (D.view result.disk) result.status result.earlier result.events }
    // Where every session of the last run that lived came to its end, all of it.
    ensures workload_left { (accounts : ℕ) → command_for words.now ≡ Some (Command.Workload accounts) → IsTrue (D.view disk).tells → IsUnmade (D.view disk) →
        LeavesAll ⟦<ReservingStatements as Statements>⟧.stands words.now (G.mortals gate.now) accounts (D.view result.disk) result.status result.earlier result.events }
    // It is refused only where the database that it leaves has used up its numbers.
    ensures workload_refused { is_workload (command_for words.now) ≡ true → IsTrue (D.view disk).tells → IsUnmade (D.view disk) → result.status ≡ 4 →
        HasNoNumbers (D.view result.disk) }
    // VERIFY finds no fault behind it.
    ensures workload_faultless { is_workload (command_for words.now) ≡ true → IsTrue (D.view disk).tells → IsUnmade (D.view disk) → result.status ≡ 7 → ⊥ }
    // Where no call on the disk or the sink failed it ends with 0, 4, 5 or 8.
    ensures workload_unharmed { is_workload (command_for words.now) ≡ true → IsTrue (D.view disk).tells → IsUnmade (D.view disk) →
        (Rose (D.view disk).faults (D.view result.disk).faults → ⊥) → (Rose (K.faults out.old) (K.faults out.new) → ⊥) → is_unharmed result.status ≡ true }
    // Its statuses.
    ensures workload_statuses { is_workload (command_for words.now) ≡ true → is_workload_status result.status ≡ true }
{
    let alloc = rt.alloc();
    let mut disk = disk;
    match command_of(words) {
        None => unsaid(alloc, 1, disk),
        Some(Command::New(limits)) => unsaid(alloc, run_new(&mut disk, limits), disk),
        Some(Command::Verify) => {
            let status = verify_command(alloc, &mut disk, out);
            unsaid(alloc, status, disk)
        }
        Some(Command::Dump) => {
            let status = dump_command(alloc, &mut disk, out);
            unsaid(alloc, status, disk)
        }
        Some(Command::DumpPage(place)) => {
            let status = page_command(alloc, &mut disk, place.file, place.page, out);
            unsaid(alloc, status, disk)
        }
        Some(Command::Backup(number)) => {
            let status = backup_command(alloc, &mut disk, number);
            unsaid(alloc, status, disk)
        }
        Some(Command::BackupJournal(number)) => {
            let status = journal_command(&mut disk, number);
            unsaid(alloc, status, disk)
        }
        Some(Command::Restore(number)) => {
            let status = restore_command(alloc, &mut disk, number);
            unsaid(alloc, status, disk)
        }
        Some(Command::Recover(_)) => {
            let status = run_recover(alloc, words, &mut disk, out);
            unsaid(alloc, status, disk)
        }
        Some(Command::Workload(accounts)) => {
            let task = Task { words, accounts };
            run_workload::<R, Brand, D, K, G>(rt, alloc, task, disk, out, gate)
        }
        Some(Command::Rdo(given)) => {
            let asked = Asked { words, given };
            run_rdo::<R, O, D, S, K, G>(rt, asked, disk, scripts, out, gate)
        }
    }
}
