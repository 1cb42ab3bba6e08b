// The words of the command line.
use command_words::{
    Command, Death, DeathPoint, PagePlace, command_of, copies_of, database_word, order_of,
    script_words,
};
use rdb_types::{Items, Limits, NoMemory, Word};
use std::alloc::Global;

fn words_of(alloc: Global, line: &str) -> Result<Items<Word>, NoMemory> {
    let mut words = Items::new(alloc);
    for word in line.split(' ') {
        words.push(Word::from_slice(alloc, word.as_bytes())?)?;
    }
    Ok(words)
}

fn tell_limits(rt: &HostRuntime, limits: Limits) {
    let Limits {
        pages,
        snaps,
        entries,
        slots,
    } = limits;
    let _ = println!(rt;
        "  new: {pages} pages, {snaps} versions, {entries} entries, {slots} slots"
    );
}

fn tell_death(rt: &HostRuntime, death: Option<Death>) {
    let Some(Death { session, at }) = death else {
        return;
    };
    let _ = match at {
        DeathPoint::Step(step) => println!(rt; "  session {session} dies before step {step}"),
        DeathPoint::Barrier => println!(rt; "  session {session} dies before its barrier"),
    };
}

fn tell_row(rt: &HostRuntime, words: &[Word]) {
    match command_of(words) {
        Some(Command::New(limits)) => tell_limits(rt, limits),
        Some(Command::Rdo(scripts)) => {
            let (first, count, has_order) = (scripts.first, scripts.count, scripts.has_order);
            let _ = println!(rt;
                "  {count} scripts from word {first} on, in an order: {has_order}"
            );
            tell_death(rt, scripts.death);
        }
        Some(Command::Workload(accounts)) => {
            let _ = println!(rt; "  workload of {accounts} accounts");
        }
        Some(Command::Verify) => {
            let _ = println!(rt; "  verify");
        }
        Some(Command::Dump) => {
            let _ = println!(rt; "  dump");
        }
        Some(Command::DumpPage(PagePlace { file, page })) => {
            let _ = println!(rt; "  dump page {page} of area file {file}");
        }
        Some(Command::Backup(number)) => {
            let _ = println!(rt; "  backup {number}");
        }
        Some(Command::BackupJournal(number)) => {
            let _ = println!(rt; "  copy {number} of the journal");
        }
        Some(Command::Restore(number)) => {
            let _ = println!(rt; "  restore of backup {number}");
        }
        Some(Command::Recover(count)) => {
            let _ = println!(rt; "  roll-forward over {count} copies");
        }
        None => {
            let _ = println!(rt; "  refused");
        }
    }
}

// The copies of a roll-forward.
fn tell_copies(rt: &HostRuntime, words: &[Word]) -> Result<(), NoMemory> {
    if !matches!(command_of(words), Some(Command::Recover(_))) {
        return Ok(());
    }
    let _ = print!(rt; "  copies");
    for number in copies_of(rt.alloc(), words)?.as_slice() {
        let _ = print!(rt; " {number}");
    }
    let _ = println!(rt; "");
    Ok(())
}

fn tell_places(rt: &HostRuntime, words: &[Word]) {
    let (first, count) = script_words(words);
    let _ = match database_word(words) {
        Some(at) => println!(rt; "  database word {at}, script words {first} and {count} in all"),
        None => println!(rt; "  no database word, script words {first} and {count} in all"),
    };
}

/// Tells what the words are.
pub fn tell_command(rt: &HostRuntime, line: &str) -> Result<(), NoMemory> {
    let words = words_of(rt.alloc(), line)?;
    tell_row(rt, words.as_slice());
    tell_copies(rt, words.as_slice())?;
    tell_places(rt, words.as_slice());
    let _ = print!(rt; "  order");
    for session in order_of(rt.alloc(), words.as_slice())?.as_slice() {
        let _ = print!(rt; " {session}");
    }
    let _ = println!(rt; "");
    Ok(())
}
