//! The program `rdb`: its words are run over files and standard output.
#![tactic(auto)]

ghost use Rattle.std.specs.Prelude.{[]};

use command_words::{database_word, only_reads, script_words};
use rdb_drive::{Act, Gate, Point};
use rdb_hostdisk::{HostDisk, HostSink, HostSource};
use rdb_outside::Disk;
use rdb_top::run;
use rdb_types::{Copied, Items, NoMemory, Session, Word};
use std::alloc::Global;
use std::env;
use std::fs::File;
use std::marker::Brand;
use std::process::ExitCode;
use std::rt::{Env, Files};
use std::sync::Wait;
use std::thread::Threads;

/// The gate of the program, which lets every step go on.
#[derive(Drop)]
struct OpenGate {}

impl Gate for OpenGate {
    ghost mortals = { λ _. [] };

    fn pass(&self, _s: Session, _step: u64, _point: Point) -> Act {
        Act::Go
    }
}

/// The words of the command line behind the program's name. Where they can't be had there are none.
fn words_of<R: Env + AllocGlobal>(rt: &R, alloc: Global) -> Result<Items<Word>, NoMemory> {
    let mut words = Items::new(alloc);
    let Ok(args) = env::args(rt) else {
        return Ok(words);
    };
    for arg in args.skip(1) {
        words.push(Word::from_slice(alloc, arg.as_bytes())?)?;
    }
    Ok(words)
}

fn base_of(alloc: Global, words: &[Word]) -> Result<Word, NoMemory> {
    match database_word(words) {
        Some(at) if at < words.len() => words[at].copied(alloc),
        _ => Ok(Word::new(alloc)),
    }
}

// The files of the database, which a command that only reads may share with others of its kind.
fn disk_of<R: Files<File = File> + Clone + Drop>(
    rt: &R,
    alloc: Global,
    words: &[Word],
    base: &Word,
) -> Result<HostDisk<R>, NoMemory> {
    if only_reads(words) {
        HostDisk::reading(rt, alloc, base)
    } else {
        HostDisk::over(rt, alloc, base)
    }
}

fn names_of(words: &[Word]) -> &[Word] {
    let (first, count) = script_words(words);
    if first <= words.len() && count <= words.len() - first {
        &words[first..first + count]
    } else {
        &[]
    }
}

fn status_of<
    R: Threads + Wait + Sync + Files + Print + Env + AllocGlobal + Clone + Drop,
    D: Disk + Send + Drop,
>(rt: &R, alloc: Global, words: &[Word], disk: D) -> Result<u8, NoMemory> {
    let mut scripts = HostSource::over(rt, alloc, names_of(words))?;
    let mut out = HostSink::over(rt)?;
    let finish = run::<R, Brand, D, HostSource<R>, HostSink<R>, OpenGate>(
        rt,
        words,
        disk,
        &mut scripts,
        &mut out,
        &OpenGate {},
    );
    Ok(finish.status)
}

fn main(rt: HostRuntime) -> ExitCode {
    let status = match words_of(&rt, rt.alloc()) {
        Err(_) => 5,
        Ok(words) => match base_of(rt.alloc(), words.as_slice()) {
            Err(_) => 5,
            Ok(base) => match disk_of(&rt, rt.alloc(), words.as_slice(), &base) {
                Err(_) => 5,
                Ok(disk) => match status_of(&rt, rt.alloc(), words.as_slice(), disk) {
                    Ok(status) => status,
                    Err(_) => 5,
                },
            },
        },
    };
    if status != 0 && status != 7 && status != 8 {
        let _ = eprintln!(&rt; "rdb: status {status}");
    }
    ExitCode::from(status)
}
