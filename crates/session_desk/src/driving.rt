// A case is driven: session 4 first, then an order of turns, and then all again and again.
ghost use Rattle.std.specs.Prelude.{◌≡◌, ◌≤◌, ◌<◌, ◌^◌, All, ℕ, true, length, IfSome};
ghost use Rattle.rdb_types.specs.declared.session.Cause.{Cause as CauseValue};
ghost use Rattle.line_store.specs.Seats.{outside};
ghost use Rattle.line_cluster.specs.Sound.{FollowsScripts};

use crate::events::{put_event, put_number};
use crate::retelling::retell;
use crate::world::{Came, World};
use lent_values::{Naming, Opened};
use line_cluster::Origin;
use line_store::LineStore;
use rdb_types::{Bytes, NoMemory, Session};
use reached_changes::Reaches;
use reserved_locks::Reserves;
use session_jobs::Job;
use session_states::WholeScript;
use std::alloc::Global;

/// So many sessions has each case.
pub const SESSIONS: u32 = 4;

/// A case has so many rounds at most.
const MAX_ROUNDS: u32 = 20_000;

/// The session that says its script first.
pub const FIRST: Session = Session { number: 4 };

/// How a case is driven, and what is told of it.
#[derive(Clone, Copy, PartialEq, Eq)]
pub enum Drive {
    /// By turns; the answers are told.
    Turns,
    /// By turns; what each came to is told besides.
    Told,
    /// By turns; the events are told besides.
    Events,
    /// The sessions of the order by steps in turn, until they are over.
    Steps,
}

/// The session that a word names.
pub fn session_of(word: &str) -> Option<Session>
    ensures { IfSome result (λ s. (1 ≤ s.number) × (s.number ≤ 4)) }
{
    match word.parse::<u32>() {
        Ok(number) if 1 <= number && number <= SESSIONS => Some(Session { number }),
        _ => None,
    }
}

fn put_came(word: &str, came: Came, out: &mut Bytes) -> Result<(), NoMemory> {
    out.extend(b"  turn of ")?;
    out.extend(word.as_bytes())?;
    match came {
        Came::Moved => out.extend(b": moved\n"),
        Came::Answered => out.extend(b": answered\n"),
        Came::Rests => out.extend(b": asleep\n"),
        Came::Over => out.extend(b": over\n"),
        Came::Stopped => out.extend(b": stopped\n"),
    }
}

// One entry of an order.
fn drive_entry<O: Origin + Naming, S: Reserves + Reaches, L: LineStore + Drop>(
    world: &mut World<O, S, L>,
    word: &str,
    drive: Drive,
    out: &mut Bytes,
) -> Result<(), NoMemory>
    requires sessions { O.sessions ≡ 4 }
    requires mortal { (t : ℕ) (cause : CauseValue) → O.opening.may_die t cause ≡ true }
{
    if let Some(dies) = word.strip_prefix("-") {
        if let Some(s) = session_of(dies) {
            world.die(s);
        }
        return Ok(());
    }
    if let Some(steps) = word.strip_prefix(".") {
        if let Some(s) = session_of(steps) {
            let _came = world.step(s);
        }
        return Ok(());
    }
    if let Some(s) = session_of(word) {
        let came = world.turn(s);
        if drive == Drive::Told {
            put_came(word, came, out)?;
        }
    }
    Ok(())
}

// An order of turns.
fn drive_order<O: Origin + Naming, S: Reserves + Reaches, L: LineStore + Drop>(
    world: &mut World<O, S, L>,
    order: &str,
    drive: Drive,
    out: &mut Bytes,
) -> Result<(), NoMemory>
    requires sessions { O.sessions ≡ 4 }
    requires mortal { (t : ℕ) (cause : CauseValue) → O.opening.may_die t cause ≡ true }
{
    for word in order.split(',') {
        drive_entry(world, word, drive, out)?;
    }
    Ok(())
}

// A step of each session of an order. False where none of them goes on.
fn step_each<O: Origin + Naming, S: Reserves + Reaches, L: LineStore + Drop>(
    world: &mut World<O, S, L>,
    order: &str,
) -> bool
    requires sessions { O.sessions ≡ 4 }
{
    let mut goes_on = false;
    for word in order.split(',') {
        if let Some(s) = session_of(word) {
            match world.step(s) {
                Came::Over | Came::Stopped => {}
                _ => goes_on = true,
            }
        }
    }
    goes_on
}

// The sessions of an order by steps in turn.
fn drive_steps<O: Origin + Naming, S: Reserves + Reaches, L: LineStore + Drop>(
    world: &mut World<O, S, L>,
    order: &str,
)
    requires sessions { O.sessions ≡ 4 }
{
    for _ in 0..MAX_ROUNDS {
        if !step_each(world, order) {
            return;
        }
    }
}

// A turn of each session. False where none moves any more.
fn go_round<O: Origin + Naming, S: Reserves + Reaches, L: LineStore + Drop>(
    world: &mut World<O, S, L>,
    out: &mut Bytes,
) -> Result<bool, NoMemory>
    requires sessions { O.sessions ≡ 4 }
{
    let mut are_over = true;
    for number in 1..5u32 {
        match world.turn(Session { number }) {
            Came::Over => {}
            Came::Stopped => {
                out.extend(b"  STOPPED\n")?;
                return Ok(false);
            }
            _ => are_over = false,
        }
    }
    Ok(!are_over)
}

fn drive_rounds<O: Origin + Naming, S: Reserves + Reaches, L: LineStore + Drop>(
    world: &mut World<O, S, L>,
    out: &mut Bytes,
) -> Result<(), NoMemory>
    requires sessions { O.sessions ≡ 4 }
{
    for _ in 0..MAX_ROUNDS {
        if !go_round(world, out)? {
            return Ok(());
        }
    }
    out.extend(b"  IT NEVER ENDS\n")
}

// The first script is said whole.
fn drive_first<O: Origin + Naming, S: Reserves + Reaches, L: LineStore + Drop>(
    world: &mut World<O, S, L>,
)
    requires sessions { O.sessions ≡ 4 }
{
    for _ in 0..MAX_ROUNDS {
        match world.turn(FIRST) {
            Came::Over | Came::Stopped => return,
            _ => {}
        }
    }
}

fn tell_events<O: Origin + Naming, S: Reserves + Reaches, L: LineStore + Drop>(
    world: &World<O, S, L>,
    from: usize,
    out: &mut Bytes,
) -> Result<(), NoMemory> {
    for event in world.events().iter().skip(from) {
        put_event(event, out)?;
    }
    Ok(())
}

fn put_count(count: u32, out: &mut Bytes) -> Result<(), NoMemory> {
    out.extend(b"  told again ")?;
    put_number(count, out)?;
    out.extend(b", answered\n")
}

fn tell_answers<O: Origin + Naming, S: Reserves + Reaches, L: LineStore + Drop>(
    alloc: Global,
    world: &World<O, S, L>,
    out: &mut Bytes,
) -> Result<(), NoMemory> {
    for number in 1..5u32 {
        world.put_answers(alloc, Session { number }, out)?;
    }
    Ok(())
}

// The words of an order.
fn words_of(order: &[u8]) -> &str {
    std::str::from_utf8(order).unwrap_or("")
}

/// The scripts of a case, and the desk of its sessions, which lend nothing here.
#[derive(Drop)]
pub struct Scripts {
    pub scripts: Vec<WholeScript>,
    pub desk: Opened<Job>,
}

impl Scripts {
    /// The scripts beside a desk that has lent nothing.
    pub fn new(scripts: Vec<WholeScript>) -> Scripts
        ensures { result.scripts ≡ scripts }
    {
        Scripts {
            scripts,
            desk: Opened::new(),
        }
    }
}

/// Drives the sessions of these scripts, and tells of it. (The order is bytes, since a call that picks what a run began with takes no text.)
pub fn run<O: Origin + Naming, S: Reserves + Reaches, L: LineStore + Drop>(
    alloc: Global,
    store: L,
    said: Scripts,
    order: &[u8],
    drive: Drive,
    out: &mut Bytes,
) -> Result<(), NoMemory>
    requires desk { said.desk ≡ O.book }
    requires outside { (s : ℕ) → (L.sight store).stand s ≡ outside }
    requires count { length said.scripts.items ≡ 4 }
    requires sessions { O.sessions ≡ 4 }
    requires scripts { FollowsScripts O.opening said.scripts.items }
    requires short { All (λ script. length script.items < 2 ^ 32) said.scripts.items }
    requires untold { O.told → ⊥ }
    requires mortal { (t : ℕ) (cause : CauseValue) → O.opening.may_die t cause ≡ true }
{
    let mut world: World<O, S, L> = World::new(alloc, store, said.scripts, said.desk)?;
    drive_first(&mut world);
    let first = world.events().len();
    match drive {
        Drive::Steps => drive_steps(&mut world, words_of(order)),
        _ => drive_order(&mut world, words_of(order), drive, out)?,
    }
    drive_rounds(&mut world, out)?;
    let count = retell(alloc, world.events(), out)?;
    if drive == Drive::Events {
        tell_events(&world, first, out)?;
        put_count(count, out)?;
    }
    tell_answers(alloc, &world, out)
}
