//! Cases of sessions over a store of lines in memory, or on a disk in memory, with statements worked over lines. README.md has the words of their lines; each line is echoed.
#![tactic(auto)]

mod stores;

ghost use Rattle.std.specs.Prelude.{◌<◌, ◌^◌, All, IfOk, length};

use rdb_types::{Bytes, Limits, NoMemory, Session};
use session_desk::{Drive, FIRST, SESSIONS, script_of, session_of};
use session_states::WholeScript;
use std::alloc::Global;
use std::process::ExitCode;
use stores::{DiskPlan, run_in_memory, run_on_disk};

const BASE: &str = "START_TRANSACTION READ_WRITE
DEFINE RELATION T.
 K DATATYPE IS SIGNED LONGWORD.
 V DATATYPE IS SIGNED QUADWORD.
END T RELATION.
DEFINE INDEX TK FOR T DUPLICATES ARE NOT ALLOWED.
 K.
END TK INDEX.
STORE E IN T USING E.K = 1; E.V = 10; END_STORE
STORE E IN T USING E.K = 2; E.V = 20; END_STORE
COMMIT
";

/// The limits of a store of which no case says otherwise.
const LIMITS: Limits = Limits {
    pages: 128,
    snaps: 256,
    entries: 256,
    slots: 500,
};

fn new_scripts(alloc: Global) -> Result<Vec<Bytes>, NoMemory> {
    let mut scripts = Vec::new(alloc);
    for _ in 0..SESSIONS {
        scripts.push(Bytes::new(alloc))?;
    }
    Ok(scripts)
}

fn add_line(scripts: &mut Vec<Bytes>, s: Session, text: &str) -> Result<(), NoMemory> {
    match scripts.get_mut((s.number as usize).saturating_sub(1)) {
        Some(script) => {
            script.extend(text.as_bytes())?;
            script.push(b'\n')
        }
        None => Ok(()),
    }
}

fn scripts_of(alloc: Global, texts: &[Bytes]) -> Result<Vec<WholeScript>, NoMemory>
    ensures { IfOk result (λ scripts. All (λ script. length script.items < 2 ^ 32) scripts.items) }
{
    let mut scripts = Vec::new(alloc);
    for text in texts {
        scripts.push(script_of(alloc, text.as_slice())?)?;
    }
    Ok(scripts)
}

/// What a case has so far.
struct Case {
    scripts: Vec<Bytes>,
    limits: Limits,
    /// Whether its store stands on a disk in memory.
    is_on_disk: bool,
    /// The device call of its sessions that fails.
    fails: Option<u32>,
}

// By hand, so that it is one call wherever one is let go.
impl Drop for Case {
    fn drop(self) {
        let Case {
            scripts: _scripts,
            limits: _,
            is_on_disk: _,
            fails: _,
        } = self;
    }
}

fn new_case(alloc: Global) -> Result<Case, NoMemory> {
    Ok(Case {
        scripts: new_scripts(alloc)?,
        limits: LIMITS,
        is_on_disk: false,
        fails: None,
    })
}

fn set_number(case: &mut Case, word: &str, number: &str) {
    let Ok(number) = number.parse::<u32>() else {
        return;
    };
    match word {
        "pages" => case.limits.pages = number,
        "snaps" => case.limits.snaps = number,
        "entries" => case.limits.entries = number,
        "slots" => case.limits.slots = number,
        "fails" => case.fails = Some(number),
        _ => {}
    }
}

fn run_scripts(
    alloc: Global,
    case: &Case,
    order: &str,
    drive: Drive,
    out: &mut Bytes,
) -> Result<(), NoMemory> {
    let scripts = scripts_of(alloc, case.scripts.as_slice())?;
    if scripts.len() != SESSIONS as usize {
        return Ok(());
    }
    if case.is_on_disk {
        let plan = DiskPlan {
            limits: case.limits,
            fails: case.fails,
        };
        return run_on_disk(alloc, plan, scripts, order, drive, out);
    }
    run_in_memory(alloc, case.limits, scripts, order, drive, out)
}

fn say(alloc: Global, case: &mut Case, line: &str, out: &mut Bytes) -> Result<(), NoMemory> {
    let (word, rest) = line.split_once(' ').unwrap_or((line, ""));
    if let Some(s) = session_of(word) {
        return add_line(&mut case.scripts, s, rest);
    }
    match word {
        "-" => *case = new_case(alloc)?,
        "disk" => case.is_on_disk = true,
        "base" => add_line(&mut case.scripts, FIRST, BASE)?,
        "run" => run_scripts(alloc, case, rest, Drive::Turns, out)?,
        "turns" => run_scripts(alloc, case, rest, Drive::Told, out)?,
        "events" => run_scripts(alloc, case, rest, Drive::Events, out)?,
        "steps" => run_scripts(alloc, case, rest, Drive::Steps, out)?,
        _ => set_number(case, word, rest),
    }
    Ok(())
}

fn tell<R: Print>(rt: &R, out: &Bytes) {
    if let Ok(text) = std::str::from_utf8(out.as_slice()) {
        let _ = print!(rt; "{text}");
    }
}

// Echoes a line, and tells what comes of it.
fn say_line(rt: &HostRuntime, case: &mut Case, text: &str) -> Result<(), NoMemory> {
    let _ = println!(rt; "{text}");
    let mut out = Bytes::new(rt.alloc());
    say(rt.alloc(), case, text, &mut out)?;
    tell(rt, &out);
    Ok(())
}

// Says each line, and gives the status.
fn say_lines(rt: &HostRuntime, case: &mut Case) -> u8 {
    for line in rt.lines(rt.alloc()) {
        let Ok(line) = line else {
            return 3;
        };
        if say_line(rt, case, line.as_str()).is_err() {
            return 5;
        }
    }
    0
}

fn main(rt: HostRuntime) -> ExitCode {
    match new_case(rt.alloc()) {
        Ok(mut case) => ExitCode::from(say_lines(&rt, &mut case)),
        Err(_) => ExitCode::from(5),
    }
}
