//! Cases of sessions that drive one value. Each line of standard input is an order of sessions, `2,1,2` or `2`, or `threads`, and the step at which session 2 dies, or 0; it is echoed on standard output, and below it stand the sessions in the order in which they were answered, and how often session 2 was asked, which in threads is at most once before it can go on.
#![tactic(auto)]

mod talk;

use rdb_drive::{drive, drive_in_order};
use std::process::ExitCode;
use std::sync::Wait;
use std::sync::atomic::Ordering;
use std::thread::Threads;
use talk::{DiesAt, dies_at, make_talk};

fn tell<R: Print>(rt: &R, said: &[u32]) {
    let _ = print!(rt; "  answered");
    for session in said {
        let _ = print!(rt; " {session}");
    }
    let _ = println!(rt; "");
}

fn tell_asked<R: Print>(rt: &R, gate: &DiesAt) {
    let asked = gate.asked.load(Ordering::SeqCst);
    let _ = println!(rt; "  session 2 asked {asked} times");
}

// Session 2 is asked once before it sleeps, and where it is rung only once it can go on, for its two answers and its end.
fn tell_whether_rung_in_vain<R: Print>(rt: &R, gate: &DiesAt) {
    if gate.asked.load(Ordering::SeqCst) <= 4 {
        let _ = println!(rt; "  session 2 asked at most 4 times");
    } else {
        let _ = println!(rt; "  session 2 RUNG IN VAIN");
    }
}

fn number_of(word: &str) -> u32 {
    word.parse::<u32>().unwrap_or(0)
}

fn drive_by_turns<R: Print + AllocGlobal>(rt: &R, word: &str, gate: &DiesAt) {
    let mut talk = make_talk(rt.alloc());
    let is_done = match word {
        "2,1,2" => drive_in_order(&mut talk, 2, &[2, 1, 2], gate),
        _ => drive_in_order(&mut talk, 2, &[2], gate),
    };
    if !is_done {
        let _ = println!(rt; "  NOT DONE");
    }
    tell(rt, talk.said.as_slice());
    tell_asked(rt, gate);
}

fn drive_by_threads<R: Print + AllocGlobal + Threads + Wait + Sync>(rt: &R, gate: &DiesAt) {
    let talk = drive(rt, make_talk(rt.alloc()), 2, gate);
    tell(rt, talk.said.as_slice());
    tell_whether_rung_in_vain(rt, gate);
}

fn main(rt: HostRuntime) -> ExitCode {
    for line in rt.lines(rt.alloc()) {
        let Ok(line) = line else {
            return ExitCode::from(3);
        };
        let text = line.as_str();
        let _ = println!(rt; "{text}");
        let (word, step) = text.split_once(' ').unwrap_or((text, "0"));
        let gate = dies_at(u64::from(number_of(step)));
        if word == "threads" {
            drive_by_threads(&rt, &gate);
        } else {
            drive_by_turns(&rt, word, &gate);
        }
    }
    ExitCode::from(0)
}
