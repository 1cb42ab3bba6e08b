//! The rows of the table of commands.
ghost use Rattle.std.specs.Prelude.{◌≡◌, ◌≢◌, ◌≤◌, ◌<◌, ◌+◌, ◌&&◌, ℕ, List, None, Some, IfSome, IfOk, All, codes, length, slice_index_or, []};
ghost use Rattle.std.specs.List.{list_all};
ghost use Rattle.std.specs.Option.{option_copied};
ghost use Rattle.command_words.specs.Bytes.{is_command};
ghost use Rattle.command_words.specs.Words.{is_database_byte as database_byte, is_database as database, new_words as new_of};
ghost use Rattle.command_words.specs.Words.{order_text as text_said, death_text as death_said, scripts_at as scripts_from, with_order as ordered, with_death as dying_at, behind_order as behind_order_of, behind_death as behind_death_of, rdo_words as rdo_of, order_first as first_order, said_order as order_said};
ghost use Rattle.command_words.specs.Words.{command_of as command_for, IsAllowedCommand, database_place, word_of, order_in};
ghost use Rattle.command_words.specs.Words.{is_one_database as is_one_database_of, place_of as place_for_numbers, page_words as page_words_of, rmu_command as rmu_command_for, only_reads as only_reads_for, IsAllowedPlace};
ghost use Rattle.command_words.specs.Words.{copy_words as copy_words_of, roll_words as roll_words_of, keeping_command as keeping_command_for, IsCopyNumber};
ghost use Rattle.command_words.specs.Words.{workload_words as workload_words_of, other_command as other_command_for, AreAccounts};
ghost use Rattle.command_words.specs.Options.{nothing_asked, number_in as number_in_range};
ghost use Rattle.root_file.specs.Root.{AreLimits};

use crate::bytes::{behind, is_named, to_upper};
use crate::copies::{MOST_COPIES, are_copies};
use crate::deaths::{Death, death_in};
use crate::options::{Asked, ask, limits_of, number_in};
use crate::orders::{is_order, sessions_of};
use rdb_types::{Items, Limits, NoMemory, Word};
use std::alloc::Global;

/// The most scripts that a command names.
const MOST_SCRIPTS: usize = 16;

/// Where the scripts of `RDO` stand among the words. The database's word stands in front of the first.
#[derive(Clone, Copy, Debug, PartialEq, Eq)]
pub struct Scripts {
    /// The place of the first script's word.
    pub first: usize,
    /// How many scripts there are. Each is said by a session of its own.
    pub count: u32,
    /// Whether `--ORDER` is among the words.
    pub has_order: bool,
    /// What `--DIE` says.
    pub death: Option<Death>,
}

/// The page that a command names.
#[derive(Clone, Copy, Debug, PartialEq, Eq)]
pub struct PagePlace {
    /// The number of the area file, from 1 to 3.
    pub file: u32,
    /// The number of the page, from 1 to 65,536.
    pub page: u32,
}

/// A command, by its words.
#[derive(Clone, Copy, Debug, PartialEq, Eq)]
pub enum Command {
    /// `NEW [options] db` makes an empty database with these limits.
    New(Limits),
    /// `RDO [--DIE=session:point] [--ORDER=list] db script ...` says 1 to 16 scripts to the database.
    Rdo(Scripts),
    /// `WORKLOAD db accounts` makes a database with so many accounts, from 2 to 2,000, has sessions move money between them, and counts it.
    Workload(u32),
    /// `RMU/VERIFY db` lists the faults of a database.
    Verify,
    /// `RMU/DUMP db` tells what a database is and holds.
    Dump,
    /// `RMU/DUMP/PAGE db file page` tells the bytes of a page of an area file.
    DumpPage(PagePlace),
    /// `RMU/BACKUP db number` writes the backup of this number, from 1 to 9, of a database.
    Backup(u32),
    /// `RMU/BACKUP/AFTER_JOURNAL db number` copies the after-image journal into the copy of this number, from 1 to 9, and empties it.
    BackupJournal(u32),
    /// `RMU/RESTORE db number` makes a database anew from its backup of this number, from 1 to 9.
    Restore(u32),
    /// `RMU/RECOVER db [number ...]` rolls a database forward over so many copies of its after-image journal, up to 9, and that journal.
    Recover(u32),
}

fn is_database_byte(b: u8) -> bool
    ensures { result ≡ database_byte b }
{
    b.is_ascii_alphabetic() || b.is_ascii_digit() || b == b'_'
}

fn are_database_bytes(bytes: &[u8]) -> bool
    ensures { result ≡ list_all database_byte bytes.now }
{
    bytes.iter().all(|b| is_database_byte(*b))
}

fn is_database(word: &[u8]) -> bool
    ensures { result ≡ database word.now }
{
    match word {
        [] => false,
        [b, rest @ ..] => {
            let are_good = are_database_bytes(rest);
            let starts = b.is_ascii_alphabetic();
            let is_short = rest.len() <= 23;
            starts && is_short && are_good
        }
    }
}

fn is_rdo(word: &[u8]) -> bool
    ensures { result ≡ is_command (codes "RDO") word.now }
{
    match word {
        [r, d, o] => { to_upper(*r) == b'R' && to_upper(*d) == b'D' && to_upper(*o) == b'O' }
        _ => false,
    }
}

fn is_new(word: &[u8]) -> bool
    ensures { result ≡ is_command (codes "NEW") word.now }
{
    match word {
        [n, e, w] => { to_upper(*n) == b'N' && to_upper(*e) == b'E' && to_upper(*w) == b'W' }
        _ => false,
    }
}

/// The limits that the words behind NEW name.
fn new_words(words: &[Word]) -> Option<Limits>
    ensures value { result ≡ new_of nothing_asked words.now }
    ensures allowed { IfSome result AreLimits }
{
    let mut asked = Asked {
        pages: None,
        snaps: None,
        entries: None,
        slots: None,
    };
    let mut rest = words;
    while let [word, more @ ..] = rest {
        if more.len() == 0 {
            return if is_database(word.as_slice()) {
                Some(limits_of(asked))
            } else {
                None
            };
        }
        match ask(asked, word.as_slice()) {
            Some(next) => asked = next,
            None => return None,
        }
        rest = more;
    }
    None
}

/// What a word says for `--ORDER`.
fn order_text(word: &[u8]) -> Option<&[u8]>
    ensures { option_copied result ≡ text_said word.now }
{
    behind(b"--ORDER=", word)
}

/// What a word says for `--DIE`.
fn death_text(word: &[u8]) -> Option<&[u8]>
    ensures { option_copied result ≡ death_said word.now }
{
    behind(b"--DIE=", word)
}

/// A database and 1 to 16 scripts, of which the first stands at this place.
fn scripts_at(first: usize, has_order: bool, words: &[Word]) -> Option<Scripts>
    ensures { result ≡ scripts_from first has_order words.now }
{
    match words {
        [] => None,
        [database, scripts @ ..] => {
            let is_good = is_database(database.as_slice());
            let is_some = 1 <= scripts.len();
            if is_good && is_some && scripts.len() <= MOST_SCRIPTS {
                Some(Scripts {
                    first,
                    count: scripts.len() as u32,
                    has_order,
                    death: None,
                })
            } else {
                None
            }
        }
    }
}

/// The scripts, where the order is one of their sessions.
fn with_order(order: &[u8], scripts: Option<Scripts>) -> Option<Scripts>
    ensures { result ≡ ordered order.now scripts }
{
    match scripts {
        Some(scripts) if is_order(scripts.count, order) => Some(scripts),
        _ => None,
    }
}

/// The scripts, where the death is that of one of their sessions.
fn with_death(text: &[u8], scripts: Option<Scripts>) -> Option<Scripts>
    ensures { result ≡ dying_at text.now scripts }
{
    let scripts = scripts?;
    match death_in(scripts.count, text) {
        None => None,
        Some(death) => Some(Scripts {
            death: Some(death),
            ..scripts
        }),
    }
}

/// The words behind `--ORDER`.
fn behind_order(words: &[Word]) -> Option<Scripts>
    ensures { result ≡ behind_order_of words.now }
{
    match words {
        [] => None,
        [word, rest @ ..] => match death_text(word.as_slice()) {
            None => scripts_at(3, true, words),
            Some(text) => with_death(text, scripts_at(4, true, rest)),
        },
    }
}

/// The words behind `--DIE`.
fn behind_death(words: &[Word]) -> Option<Scripts>
    ensures { result ≡ behind_death_of words.now }
{
    match words {
        [] => None,
        [word, rest @ ..] => match order_text(word.as_slice()) {
            None => scripts_at(3, false, words),
            Some(order) => with_order(order, scripts_at(4, true, rest)),
        },
    }
}

/// The words behind RDO.
fn rdo_words(words: &[Word]) -> Option<Scripts>
    ensures { result ≡ rdo_of words.now }
{
    match words {
        [] => None,
        [word, rest @ ..] => match (order_text(word.as_slice()), death_text(word.as_slice())) {
            (Some(order), _) => with_order(order, behind_order(rest)),
            (None, Some(text)) => with_death(text, behind_death(rest)),
            (None, None) => scripts_at(2, false, words),
        },
    }
}

/// How many accounts a workload makes, behind a database.
fn workload_words(words: &[Word]) -> Option<u32>
    ensures value { result ≡ workload_words_of words.now }
    ensures allowed { IfSome result (λ accounts. AreAccounts accounts) }
{
    match words {
        [database, accounts] => if is_database(database.as_slice()) {
            number_in(2, 2000, accounts.as_slice())
        } else {
            None
        },
        _ => None,
    }
}

/// Whether a database alone stands behind a command word.
fn is_one_database(words: &[Word]) -> bool
    ensures { result ≡ is_one_database_of words.now }
{
    match words {
        [database] => is_database(database.as_slice()),
        _ => false,
    }
}

/// The page that a word of an area file's number and one of a page's number name.
fn place_of(file: &[u8], page: &[u8]) -> Option<PagePlace>
    ensures value { result ≡ place_for_numbers (number_in_range 1 3 file.now) (number_in_range 1 65536 page.now) }
    ensures allowed { IfSome result (λ place. IsAllowedPlace place) }
{
    match (number_in(1, 3, file), number_in(1, 65536, page)) {
        (Some(file), Some(page)) => Some(PagePlace { file, page }),
        _ => None,
    }
}

/// The page that the words behind `RMU/DUMP/PAGE` name.
fn page_words(words: &[Word]) -> Option<PagePlace>
    ensures value { result ≡ page_words_of words.now }
    ensures allowed { IfSome result (λ place. IsAllowedPlace place) }
{
    match words {
        [database, file, page] => if is_database(database.as_slice()) {
            place_of(file.as_slice(), page.as_slice())
        } else {
            None
        },
        _ => None,
    }
}

/// The number of a backup, or of a copy of the journal, behind a database.
fn copy_words(words: &[Word]) -> Option<u32>
    ensures value { result ≡ copy_words_of words.now }
    ensures allowed { IfSome result (λ number. IsCopyNumber number) }
{
    match words {
        [database, number] => if is_database(database.as_slice()) {
            number_in(1, 9, number.as_slice())
        } else {
            None
        },
        _ => None,
    }
}

/// The command of RMU that keeps copies, of a command word and the words behind it.
fn keeping_command(command: &[u8], words: &[Word]) -> Option<Command>
    ensures row { result ≡ keeping_command_for command.now words.now }
    ensures allowed { (all : List (List ℕ)) → IfSome result (λ command. IsAllowedCommand all command) }
{
    let number = copy_words(words)?;
    if is_named(b"RMU/BACKUP", command) {
        Some(Command::Backup(number))
    } else if is_named(b"RMU/BACKUP/AFTER_JOURNAL", command) {
        Some(Command::BackupJournal(number))
    } else if is_named(b"RMU/RESTORE", command) {
        Some(Command::Restore(number))
    } else {
        None
    }
}

/// How many copies of the journal stand behind a database.
fn roll_words(words: &[Word]) -> Option<u32>
    ensures value { result ≡ roll_words_of words.now }
    ensures few { IfSome result (λ count. count ≤ 9) }
{
    match words {
        [] => None,
        [database, numbers @ ..] => {
            let is_good = is_database(database.as_slice());
            let are_copies = are_copies(numbers);
            if is_good && numbers.len() <= MOST_COPIES && are_copies {
                Some(numbers.len() as u32)
            } else {
                None
            }
        }
    }
}

/// The command of RMU of a command word and the words behind it.
fn rmu_command(command: &[u8], words: &[Word]) -> Option<Command>
    ensures row { result ≡ rmu_command_for command.now words.now }
    ensures allowed { (all : List (List ℕ)) → IfSome result (λ command. IsAllowedCommand all command) }
{
    if is_named(b"RMU/VERIFY", command) {
        if is_one_database(words) {
            Some(Command::Verify)
        } else {
            None
        }
    } else if is_named(b"RMU/DUMP", command) {
        if is_one_database(words) {
            Some(Command::Dump)
        } else {
            None
        }
    } else if is_named(b"RMU/DUMP/PAGE", command) {
        match page_words(words) {
            Some(place) => Some(Command::DumpPage(place)),
            None => None,
        }
    } else if is_named(b"RMU/RECOVER", command) {
        match roll_words(words) {
            Some(count) => Some(Command::Recover(count)),
            None => None,
        }
    } else {
        keeping_command(command, words)
    }
}

/// The command that names neither scripts nor limits, of a command word and the words behind it.
fn other_command(command: &[u8], words: &[Word]) -> Option<Command>
    ensures row { result ≡ other_command_for command.now words.now }
    ensures allowed { (all : List (List ℕ)) → IfSome result (λ command. IsAllowedCommand all command) }
{
    if is_named(b"WORKLOAD", command) {
        match workload_words(words) {
            Some(accounts) => Some(Command::Workload(accounts)),
            None => None,
        }
    } else {
        rmu_command(command, words)
    }
}

/// The row of the table of commands that the words are.
pub fn command_of(words: &[Word]) -> Option<Command>
    ensures row { result ≡ command_for words.now }
    ensures allowed { IfSome result (λ command. IsAllowedCommand words.now command) }
{
    match words {
        [] => None,
        [command, rest @ ..] => {
            let is_new = is_new(command.as_slice());
            if is_rdo(command.as_slice()) {
                match rdo_words(rest) {
                    Some(scripts) => Some(Command::Rdo(scripts)),
                    None => None,
                }
            } else if is_new {
                match new_words(rest) {
                    Some(limits) => Some(Command::New(limits)),
                    None => None,
                }
            } else {
                other_command(command.as_slice(), rest)
            }
        }
    }
}

/// The place of the database's word, and None exactly where the words are no row of the table.
pub fn database_word(words: &[Word]) -> Option<usize>
    ensures place { result ≡ database_place words.now }
    ensures within { IfSome result (λ at. at < length words.now) }
    ensures word { (scripts : Scripts) → command_for words.now ≡ Some (Command.Rdo scripts) →
        IfSome result (λ at. slice_index_or words.now at [] ≡ word_of words.now) }
{
    match command_of(words) {
        Some(Command::Rdo(scripts)) => Some(scripts.first.saturating_sub(1)),
        Some(Command::New(_)) => Some(words.len().saturating_sub(1)),
        Some(Command::Workload(_)) => Some(words.len().saturating_sub(2)),
        Some(Command::Verify) => Some(words.len().saturating_sub(1)),
        Some(Command::Dump) => Some(words.len().saturating_sub(1)),
        Some(Command::DumpPage(_)) => Some(words.len().saturating_sub(3)),
        Some(Command::Backup(_)) => Some(words.len().saturating_sub(2)),
        Some(Command::BackupJournal(_)) => Some(words.len().saturating_sub(2)),
        Some(Command::Restore(_)) => Some(words.len().saturating_sub(2)),
        Some(Command::Recover(count)) => Some(
            words.len().saturating_sub(1).saturating_sub(count as usize),
        ),
        None => None,
    }
}

/// Whether the words are a command that changes nothing, and writes what it finds.
pub fn only_reads(words: &[Word]) -> bool
    ensures { result ≡ only_reads_for (command_for words.now) }
{
    match command_of(words) {
        Some(Command::Verify) => true,
        Some(Command::Dump) => true,
        Some(Command::DumpPage(_)) => true,
        Some(Command::New(_)) => false,
        Some(Command::Workload(_)) => false,
        Some(Command::Rdo(_)) => false,
        Some(Command::Backup(_)) => false,
        Some(Command::BackupJournal(_)) => false,
        Some(Command::Restore(_)) => false,
        Some(Command::Recover(_)) => false,
        None => false,
    }
}

/// The first place and the count of the script words, and (0, 0) where there are none.
pub fn script_words(words: &[Word]) -> (usize, usize)
    ensures none { ((scripts : Scripts) → command_for words.now ≢ Some (Command.Rdo scripts)) →
        result ≡ record { 0 = 0; 1 = 0 } }
    ensures some { (scripts : Scripts) → command_for words.now ≡ Some (Command.Rdo scripts) →
        result ≡ record { 0 = scripts.first; 1 = scripts.count } }
    ensures within { result.0 + result.1 ≤ length words.now }
{
    match command_of(words) {
        Some(Command::Rdo(scripts)) => (scripts.first, scripts.count as usize),
        _ => (0, 0),
    }
}

/// What the first word says for `--ORDER`.
fn order_first(words: &[Word]) -> Option<&[u8]>
    ensures { option_copied result ≡ first_order words.now }
{
    match words {
        [] => None,
        [word, ..] => order_text(word.as_slice()),
    }
}

/// What `--ORDER` says among the options behind a command word.
fn said_order(words: &[Word]) -> Option<&[u8]>
    ensures { option_copied result ≡ order_said words.now }
{
    match words {
        [_, word, rest @ ..] => match (order_text(word.as_slice()), death_text(word.as_slice())) {
            (Some(order), _) => Some(order),
            (None, Some(_)) => order_first(rest),
            (None, None) => None,
        },
        _ => None,
    }
}

/// The sessions that `--ORDER` names, in order: none where it isn't there, or the words are no row of the table.
/// Err where memory is wanted.
pub fn order_of(alloc: Global, words: &[Word]) -> Result<Items<u32>, NoMemory>
    ensures order { IfOk result (λ order. order ≡ order_in words.now) }
    ensures sessions { (scripts : Scripts) → command_for words.now ≡ Some (Command.Rdo scripts) →
        IfOk result (λ order. All (λ s. (1 ≤ s) × (s ≤ scripts.count)) order) }
{
    match (command_of(words), said_order(words)) {
        (Some(Command::Rdo(scripts)), Some(order)) => sessions_of(alloc, scripts.count, order),
        _ => Ok(Items::new(alloc)),
    }
}
