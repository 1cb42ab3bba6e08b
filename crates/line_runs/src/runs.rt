// Scripts said over a database on a disk.
ghost use Rattle.std.specs.Prelude.{List, ◌≡◌, ◌≤◌, ◌<◌, ◌^◌, ℕ, All, None, Some, IfOk, IfErr, [], false, true, length, map};
ghost use Rattle.rdb_types.specs.declared.file.FileId.{FileId as File};
ghost use Rattle.rdb_outside.specs.Causes.{Rose};
ghost use Rattle.rdb_account.specs.Events.{Event, event_of};
ghost use Rattle.rdb_account.specs.Places.{Opening};
ghost use Rattle.line_store.specs.Seats.{outside};
ghost use Rattle.line_store.specs.Sights.{bare};
ghost use Rattle.rdb_account.specs.Legal.{IsLegal};
ghost use Rattle.rdb_drive.specs.Boards.{IsSession, MayDie};
ghost use Rattle.line_drive.specs.line_cluster.Deaths.{CountsFaults, RoseBy, failures};
ghost use Rattle.line_drive.specs.line_cluster.Sound.{FollowsScripts, HasImages, IsLeft, MayFail, ShowsSpent, is_over_slot, is_unsound};
ghost use Rattle.line_drive.specs.line_cluster.Turned.{HaveAllEnded};
ghost use Rattle.line_drive.specs.Boards.{mortals_of};
ghost use Rattle.line_drive.specs.Turns.{KeepsTurns};
ghost use Rattle.line_runs.specs.Backups.{HoldsBackups, LeavesBackups, IsFormer};
ghost use Rattle.line_runs.specs.Openings.{HasNoNumbers, HasSpent, OpensWith};
ghost use Rattle.line_runs.specs.Prefix.{GaveUp, HoldsPrefix, HoldsAll};

use disk_line_store::{DiskStore, FormerDisk};
use lent_values::{Naming, Opened};
use line_drive::{Halt, LineCluster, Origin, Ran, run_in_order, run_in_threads};
use line_opening::OpeningFault;
use line_store::LineStore;
use opened_store::open;
use rdb_account::Events;
use rdb_drive::Gate;
use rdb_outside::Disk;
use rdb_types::{Items, Word};
use rdo_reserving::ReservingStatements;
use session_jobs::{Job, Statements};
use session_states::WholeScript;
use std::alloc::Global;
use std::marker::Send;
use std::sync::Wait;
use std::thread::Threads;

/// Scripts, each of a session, the word of the database to which they are said, and the desk by which the jobs of their statements are lent.
#[derive(Drop)]
pub struct Said {
    pub word: Word,
    pub scripts: Vec<WholeScript>,
    pub desk: Opened<Job>,
}

/// A database that couldn't be opened, with its disk.
#[derive(Drop)]
pub struct Unopened<D: Drop> {
    pub disk: D,
    pub fault: OpeningFault,
}

/// What a run came to: its events, whether every session came to its end, or died and was recovered, why the database wasn't opened, if it wasn't, and why the sessions were stopped, if they were.
#[derive(Drop)]
pub struct LineRun<D: Drop> {
    pub disk: D,
    pub events: Events,
    pub is_whole: bool,
    pub fault: Option<OpeningFault>,
    pub halt: Option<Halt>,
}

/// The sessions over an opened database.
type Sessions<O, B, D> = LineCluster<O, ReservingStatements, DiskStore<B, D>>;

// Opens a database, before which a session of each script stands.
fn begin<O: Origin + Naming, B: FormerDisk, D: Disk + Drop>(
    alloc: Global,
    disk: D,
    said: Said,
) -> Result<Sessions<O, B, D>, Unopened<D>>
    requires desk { said.desk ≡ O.book }
    requires sessions { length said.scripts.items ≡ O.sessions }
    requires few { O.sessions ≤ 16 }
    requires short { All (λ script. length script.items < 2 ^ 32) said.scripts.items }
    requires scripts { FollowsScripts O.opening said.scripts.items }
    requires mortal { MayFail O.opening }
    requires word { said.word ≡ O.opening.word }
    requires opens { O.told → OpensWith ⟦<ReservingStatements as Statements>⟧.stands (D.view disk) O.opening }
    requires faults { O.told → O.faults ≡ (D.view disk).faults }
    requires former { IsFormer B.former (D.view disk) }
    ensures events { IfOk result (λ c. c.events ≡ []) }
    ensures later { O.told → IfErr result (λ u. (D.view disk).faults ≤ (D.view u.disk).faults) }
    ensures failed { IfErr result (λ u. u.fault ≡ OpeningFault.Failed → Rose (D.view disk).faults (D.view u.disk).faults) }
    ensures bad { (file : File) (slot : ℕ) → IfErr result (λ u. u.fault ≡ OpeningFault.Bad file slot → HasNoNumbers (D.view disk)) }
    ensures gave_up { O.told → IfErr result (λ u. GaveUp ⟦<ReservingStatements as Statements>⟧.stands O.opening (D.view disk) (D.view u.disk)) }
{
    let mut disk = disk;
    let held = match open(alloc, &mut disk) {
        Ok(held) => held,
        Err(fault) => return Err(Unopened { disk, fault }),
    };
    let store = DiskStore::<B, D>::new(disk, held);
    match LineCluster::start(alloc, said.word, store, said.scripts, said.desk) {
        Ok(sessions) => Ok(sessions),
        Err(store) => Err(Unopened {
            disk: store.into_disk(),
            fault: OpeningFault::NoMemory,
        }),
    }
}

// Nothing was said.
fn unsaid<D: Drop>(alloc: Global, unopened: Unopened<D>) -> LineRun<D>
    ensures events { result.events ≡ [] }
    ensures disk { result.disk ≡ unopened.disk }
    ensures is_whole { result.is_whole ≡ false }
    ensures fault { result.fault ≡ Some unopened.fault }
    ensures halt { result.halt ≡ None }
{
    LineRun {
        disk: unopened.disk,
        events: Items::new(alloc),
        is_whole: false,
        fault: Some(unopened.fault),
        halt: None,
    }
}

fn ended<B: FormerDisk, D: Disk + Drop>(ran: Ran<DiskStore<B, D>>) -> LineRun<D>
    ensures events { result.events ≡ ran.events }
    ensures is_whole { result.is_whole ≡ ran.is_whole }
    ensures fault { result.fault ≡ None }
    ensures halt { result.halt ≡ ran.halt }
    ensures faults { (faults more : ℕ) → CountsFaults faults more (⟦<DiskStore<B, D> as LineStore>⟧.sight ran.store) → RoseBy more faults (D.view result.disk).faults }
    ensures spent { ShowsSpent (⟦<DiskStore<B, D> as LineStore>⟧.sight ran.store) → HasSpent (D.view result.disk) }
    ensures images { (o : Opening) (events : List Event) → HasImages ⟦<ReservingStatements as Statements>⟧.stands o (⟦<DiskStore<B, D> as LineStore>⟧.sight ran.store) events → HoldsPrefix ⟦<ReservingStatements as Statements>⟧.stands o (D.view result.disk) events }
    ensures backups { (o : Opening) (events : List Event) → HasImages ⟦<ReservingStatements as Statements>⟧.stands o (⟦<DiskStore<B, D> as LineStore>⟧.sight ran.store) events → HoldsBackups ⟦<ReservingStatements as Statements>⟧.stands o (D.view result.disk) events }
    ensures backups_before { (o : Opening) (events : List Event) → HasImages ⟦<ReservingStatements as Statements>⟧.stands o (⟦<DiskStore<B, D> as LineStore>⟧.sight ran.store) events → LeavesBackups o B.former (D.view result.disk) events }
    ensures left { (o : Opening) (events : List Event) → IsLeft ⟦<ReservingStatements as Statements>⟧.stands o (⟦<DiskStore<B, D> as LineStore>⟧.sight ran.store) events → ((s : ℕ) → bare ((⟦<DiskStore<B, D> as LineStore>⟧.sight ran.store).stand s) ≡ outside) → HoldsAll ⟦<ReservingStatements as Statements>⟧.stands o (D.view result.disk) events }
{
    LineRun {
        disk: ran.store.into_disk(),
        events: ran.events,
        is_whole: ran.is_whole,
        fault: None,
        halt: ran.halt,
    }
}

/// Opens a database, and says scripts to it by turns of their sessions, which the order names, and then in ascending order, again and again. The gate may have a session die.
pub fn say_in_order<O: Origin + Naming + Send, B: FormerDisk + Send, D: Disk + Drop, G: Gate>(
    alloc: Global,
    disk: D,
    said: Said,
    order: &[u32],
    gate: &G,
) -> LineRun<D>
    requires desk { said.desk ≡ O.book }
    requires sessions { length said.scripts.items ≡ O.sessions }
    requires few { O.sessions ≤ 16 }
    requires short { All (λ script. length script.items < 2 ^ 32) said.scripts.items }
    requires scripts { FollowsScripts O.opening said.scripts.items }
    requires mortal { MayFail O.opening }
    requires entries { All (λ s. IsSession O.sessions s) order.now }
    requires word { said.word ≡ O.opening.word }
    requires mortals { MayDie (G.mortals gate.now) (mortals_of O.opening O.sessions) }
    requires opens { O.told → OpensWith ⟦<ReservingStatements as Statements>⟧.stands (D.view disk) O.opening }
    requires faults { O.told → O.faults ≡ (D.view disk).faults }
    requires former { IsFormer B.former (D.view disk) }
    ensures legal { O.told → IsLegal O.opening (map event_of result.events) }
    ensures whole { O.told → result.is_whole ≡ true → HaveAllEnded O.opening O.sessions (map event_of result.events) }
    ensures order { O.told → result.is_whole ≡ true → KeepsTurns O.opening O.sessions order.now result.events }
    ensures images { O.told → result.fault ≡ None → HoldsPrefix ⟦<ReservingStatements as Statements>⟧.stands O.opening (D.view result.disk) (map event_of result.events) }
    ensures backups { O.told → result.fault ≡ None → HoldsBackups ⟦<ReservingStatements as Statements>⟧.stands O.opening (D.view result.disk) (map event_of result.events) }
    ensures backups_before { O.told → result.fault ≡ None → LeavesBackups O.opening B.former (D.view result.disk) (map event_of result.events) }
    ensures left { O.told → result.is_whole ≡ true → HoldsAll ⟦<ReservingStatements as Statements>⟧.stands O.opening (D.view result.disk) (map event_of result.events) }
    ensures harmed { O.told → RoseBy (failures (map event_of result.events) result.halt) (D.view disk).faults (D.view result.disk).faults }
    ensures agrees { O.told → is_unsound result.halt ≡ false }
    ensures spent { O.told → is_over_slot result.halt ≡ true → HasSpent (D.view result.disk) }
    ensures failed { result.fault ≡ Some OpeningFault.Failed → Rose (D.view disk).faults (D.view result.disk).faults }
    ensures bad { (file : File) (slot : ℕ) → result.fault ≡ Some (OpeningFault.Bad file slot) → HasNoNumbers (D.view disk) }
    ensures unsaid { (result.fault ≡ None → ⊥) → result.events ≡ [] }
    ensures gave_up { O.told → (result.fault ≡ None → ⊥) → GaveUp ⟦<ReservingStatements as Statements>⟧.stands O.opening (D.view disk) (D.view result.disk) }
{
    let sessions = said.scripts.len() as u32;
    match begin::<O, B, D>(alloc, disk, said) {
        Ok(cluster) => ended(run_in_order(cluster, sessions, order, gate)),
        Err(unopened) => unsaid(alloc, unopened),
    }
}

/// Opens a database, and says scripts to it, each by a thread of its own. The gate may have a session die.
pub fn say_in_threads<
    R: Threads + Wait + Sync,
    O: Origin + Naming + Send,
    B: FormerDisk + Send,
    D: Disk + Drop + Send,
    G: Gate + Sync,
>(rt: &R, alloc: Global, disk: D, said: Said, gate: &G) -> LineRun<D>
    requires desk { said.desk ≡ O.book }
    requires sessions { length said.scripts.items ≡ O.sessions }
    requires few { O.sessions ≤ 16 }
    requires short { All (λ script. length script.items < 2 ^ 32) said.scripts.items }
    requires scripts { FollowsScripts O.opening said.scripts.items }
    requires mortal { MayFail O.opening }
    requires word { said.word ≡ O.opening.word }
    requires mortals { MayDie (G.mortals gate.now) (mortals_of O.opening O.sessions) }
    requires opens { O.told → OpensWith ⟦<ReservingStatements as Statements>⟧.stands (D.view disk) O.opening }
    requires faults { O.told → O.faults ≡ (D.view disk).faults }
    requires former { IsFormer B.former (D.view disk) }
    ensures legal { O.told → IsLegal O.opening (map event_of result.events) }
    ensures whole { O.told → result.is_whole ≡ true → HaveAllEnded O.opening O.sessions (map event_of result.events) }
    ensures images { O.told → result.fault ≡ None → HoldsPrefix ⟦<ReservingStatements as Statements>⟧.stands O.opening (D.view result.disk) (map event_of result.events) }
    ensures backups { O.told → result.fault ≡ None → HoldsBackups ⟦<ReservingStatements as Statements>⟧.stands O.opening (D.view result.disk) (map event_of result.events) }
    ensures backups_before { O.told → result.fault ≡ None → LeavesBackups O.opening B.former (D.view result.disk) (map event_of result.events) }
    ensures left { O.told → result.is_whole ≡ true → HoldsAll ⟦<ReservingStatements as Statements>⟧.stands O.opening (D.view result.disk) (map event_of result.events) }
    ensures harmed { O.told → RoseBy (failures (map event_of result.events) result.halt) (D.view disk).faults (D.view result.disk).faults }
    ensures agrees { O.told → is_unsound result.halt ≡ false }
    ensures spent { O.told → is_over_slot result.halt ≡ true → HasSpent (D.view result.disk) }
    ensures failed { result.fault ≡ Some OpeningFault.Failed → Rose (D.view disk).faults (D.view result.disk).faults }
    ensures bad { (file : File) (slot : ℕ) → result.fault ≡ Some (OpeningFault.Bad file slot) → HasNoNumbers (D.view disk) }
    ensures unsaid { (result.fault ≡ None → ⊥) → result.events ≡ [] }
    ensures gave_up { O.told → (result.fault ≡ None → ⊥) → GaveUp ⟦<ReservingStatements as Statements>⟧.stands O.opening (D.view disk) (D.view result.disk) }
{
    let sessions = said.scripts.len() as u32;
    match begin::<O, B, D>(alloc, disk, said) {
        Ok(cluster) => ended(run_in_threads(rt, cluster, sessions, gate)),
        Err(unopened) => unsaid(alloc, unopened),
    }
}
