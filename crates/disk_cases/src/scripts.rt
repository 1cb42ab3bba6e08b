// Scripts in files.
use rdb_hostdisk::HostSource;
use rdb_outside::Source;
use rdb_types::{Items, NoMemory, Word};
use std::alloc::Global;

fn words_of(alloc: Global, line: &str) -> Result<Items<Word>, NoMemory> {
    let mut words = Items::new(alloc);
    for word in line.split(' ') {
        words.push(Word::from_slice(alloc, word.as_bytes())?)?;
    }
    Ok(words)
}

fn tell_read(rt: &HostRuntime, source: &mut HostSource<HostRuntime>, session: u32) {
    let mut into = [0; 8];
    let _ = match source.read(session, &mut into) {
        Ok(count) => {
            let text = std::str::from_utf8(&into[..count.min(8)]).unwrap_or("?");
            println!(rt; "  session {session} reads '{text}'")
        }
        Err(_) => println!(rt; "  session {session} fails"),
    };
}

/// Reads twice what each of three sessions says.
pub fn tell_scripts(rt: &HostRuntime, names: &str) -> Result<(), NoMemory> {
    let names = words_of(rt.alloc(), names)?;
    let mut source = HostSource::over(rt, rt.alloc(), names.as_slice())?;
    for session in 1..4 {
        tell_read(rt, &mut source, session);
        tell_read(rt, &mut source, session);
    }
    Ok(())
}
