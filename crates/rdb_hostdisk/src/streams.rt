ghost use Rattle.std.specs.Prelude.{ℕ, Bool, false, List, [], ◌≤◌, length, IfOk};

use crate::MOST_TRIES;
use rdb_outside::{Failed, Sink, Source};
use rdb_types::{NoMemory, Word};
use std::alloc::Global;
use std::io::{Read, Write};
use std::rt::Files;
use std::{fs, io, str};

/// One session's script, opened when it is first read.
#[derive(Drop)]
struct Script<R: Files + Clone + Drop> {
    name: String,
    file: Option<R::File>,
}

/// The scripts, in files: session n reads the n-th, counted from 1. It tells no bytes.
#[derive(Drop)]
pub struct HostSource<R: Files + Clone + Drop> {
    rt: R,
    scripts: Vec<Script<R>>,
    faults: u64,
}

impl<R: Files + Clone + Drop> HostSource<R> {
    /// The scripts in files of these names. None is opened yet. A name that is no text is that of no file.
    pub fn over(rt: &R, alloc: Global, names: &[Word]) -> Result<HostSource<R>, NoMemory> {
        let mut scripts = Vec::new(alloc);
        for name in names {
            let name = match str::from_utf8(name.as_slice()) {
                Ok(name) => String::from_str(alloc, name)?,
                Err(_) => String::new(alloc),
            };
            scripts.push(Script { name, file: None })?;
        }
        let Ok(rt) = rt.clone() else {
            return Err(NoMemory {});
        };
        Ok(HostSource {
            rt,
            scripts,
            faults: 0,
        })
    }
}

/// One read, made again where a signal interrupts it.
fn read_some<F: Read>(file: &mut F, into: &mut [u8]) -> io::Result<usize>
    ensures { IfOk result (λ count. count ≤ length into.new) }
{
    for _ in 0..MOST_TRIES {
        match file.read(into) {
            Err(error) if error.kind() == io::ErrorKind::Interrupted => {}
            done => return done,
        }
    }
    Err(io::Error::from(io::ErrorKind::Interrupted))
}

/// One write, made again where a signal interrupts it.
fn write_some<R: Print>(rt: &R, from: &[u8]) -> io::Result<usize>
    ensures { IfOk result (λ count. count ≤ length from.now) }
{
    for _ in 0..MOST_TRIES {
        match io::writer(rt).write(from) {
            Err(error) if error.kind() == io::ErrorKind::Interrupted => {}
            done => return done,
        }
    }
    Err(io::Error::from(io::ErrorKind::Interrupted))
}

/// Reads what is left of a script.
fn read_more<R: Files + Clone + Drop>(
    rt: &R,
    script: &mut Script<R>,
    into: &mut [u8],
) -> io::Result<usize>
    ensures { IfOk result (λ count. count ≤ length into.new) }
{
    if script.file.is_none() {
        script.file = Some(fs::open(rt, script.name.as_str())?);
    }
    match &mut script.file {
        Some(file) => read_some(file, into),
        None => Ok(0),
    }
}

impl<R: Files + Clone + Drop> Source for HostSource<R> {
    ghost tells = { λ _. false };

    ghost left = { λ _ _. [] };

    ghost faults = { λ s. s.faults };

    fn read(&mut self, session: u32, into: &mut [u8]) -> Result<usize, Failed> {
        let number = session as usize;
        if number == 0 || number > self.scripts.len() {
            return Ok(0);
        }
        match read_more(&self.rt, &mut self.scripts[number - 1], into) {
            Ok(count) => Ok(count),
            Err(_) => {
                self.faults = self.faults.saturating_add(1);
                Err(Failed {})
            }
        }
    }
}

/// Standard output. It tells no bytes.
#[derive(Drop)]
pub struct HostSink<R: Print + Clone + Drop> {
    rt: R,
    faults: u64,
}

impl<R: Print + Clone + Drop> HostSink<R> {
    /// Standard output of this runtime.
    pub fn over(rt: &R) -> Result<HostSink<R>, NoMemory> {
        let Ok(rt) = rt.clone() else {
            return Err(NoMemory {});
        };
        Ok(HostSink { rt, faults: 0 })
    }
}

impl<R: Print + Clone + Drop> Sink for HostSink<R> {
    ghost tells = { λ _. false };

    ghost taken = { λ _. [] };

    ghost faults = { λ s. s.faults };

    fn write(&mut self, from: &[u8]) -> Result<usize, Failed> {
        match write_some(&self.rt, from) {
            Ok(count) if count > 0 || from.is_empty() => Ok(count),
            _ => {
                self.faults = self.faults.saturating_add(1);
                Err(Failed {})
            }
        }
    }
}
