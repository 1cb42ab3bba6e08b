// A line behind those before it.
ghost use Rattle.std.specs.Prelude.{◌≡◌, ◌≤◌, ◌<◌, ◌++◌, ◌∷◌, [], ℕ, List, Some, None, true, false};
ghost use Rattle.backup_file.specs.declared.line.BackupLine.{BackupLine as Line};
ghost use Rattle.backup_reading.specs.declared.passing.Passage.TheVariants.{SamePage, OtherPage, NotBehind};
ghost use Rattle.backup_reading.specs.declared.passing.LineTurn.TheVariants.{Goes, Refused};
ghost use Rattle.backup_reading.specs.Passing.{AreFitting, IsBehind, IsBeside, IsOnSame, MayNotFollow, ArePassed, GoesOn};

use crate::pages::{FilePage, PageTurn, add_page, page_for};
use backup_file::BackupLine;
use rdb_types::Dbkey;
use std::alloc::Global;
use std::collections::BTreeSet;

/// What the next line is judged by: the key of the last one, and the class of its page.
#[derive(Clone, Copy)]
pub(crate) struct LastLine {
    pub key: Dbkey,
    pub class: u16,
}

/// What is kept of the lines that were passed: their pages, the last of them, and their greatest transaction number.
#[derive(Drop)]
pub(crate) struct Passed {
    pub pages: BTreeSet<FilePage>,
    pub last: Option<LastLine>,
    pub greatest: u64,
}

/// No lines.
pub(crate) fn none_passed(alloc: Global) -> Passed
    ensures passed { (pages : ℕ) → ArePassed pages [] result }
    ensures greatest { result.greatest ≡ 0 }
{
    Passed {
        pages: BTreeSet::new(alloc),
        last: None,
        greatest: 0,
    }
}

// Where a line stands by the one before.
#[derive(Clone, Copy)]
enum Passage {
    SamePage,
    OtherPage,
    NotBehind,
}

// Whether both stand on one page.
fn is_beside(last: LastLine, key: Dbkey) -> bool
    ensures yes { result ≡ true → (key.area ≡ last.key.area) × (key.page ≡ last.key.page) }
    ensures no { result ≡ false → (key.area ≡ last.key.area) → (key.page ≡ last.key.page) → ⊥ }
{
    key.area == last.key.area && key.page == last.key.page
}

// How a line goes on behind another.
fn passage_behind(last: LastLine, line: &BackupLine) -> Passage
    ensures behind { (result ≡ NotBehind → ⊥) → IsBehind last line.now }
    ensures beside { result ≡ SamePage → IsBeside last line.now }
    ensures class { result ≡ SamePage → line.now.class ≡ last.class }
    ensures other { result ≡ OtherPage → IsBeside last line.now → ⊥ }
    ensures refused { result ≡ NotBehind → IsBehind last line.now
        → (IsBeside last line.now → line.now.class ≡ last.class) → ⊥ }
{
    if !(last.key < line.key) {
        return Passage::NotBehind;
    }
    if !is_beside(last, line.key) {
        return Passage::OtherPage;
    }
    if line.class != last.class {
        return Passage::NotBehind;
    }
    Passage::SamePage
}

// How a line goes on behind those that were passed.
fn passage_of(last: Option<LastLine>, line: &BackupLine) -> Passage
    ensures first { last ≡ None → result ≡ OtherPage }
    ensures behind { (result ≡ NotBehind → ⊥) → (a : _) → last ≡ Some a → IsBehind a line.now }
    ensures same { result ≡ SamePage → IsOnSame last line.now }
    ensures other { result ≡ OtherPage → (a : _) → last ≡ Some a → IsBeside a line.now → ⊥ }
    ensures refused { result ≡ NotBehind → MayNotFollow last line.now }
{
    match last {
        None => Passage::OtherPage,
        Some(last) => passage_behind(last, line),
    }
}

/// What came of a line.
#[derive(Clone, Copy)]
pub(crate) enum LineTurn {
    Goes,
    Refused,
    NoMemory,
}

// Takes a line as the last one.
fn note(passed: &mut Passed, line: &BackupLine)
    ensures pages { passed.new.pages ≡ passed.old.pages }
    ensures last { passed.new.last ≡ Some (record { key = line.now.key; class = line.now.class }) }
    ensures greatest { (passed.old.greatest ≤ passed.new.greatest)
        × (line.now.tsn.number ≤ passed.new.greatest) }
    ensures few { (bound : ℕ) → passed.old.greatest < bound → line.now.tsn.number < bound
        → passed.new.greatest < bound }
{
    passed.last = Some(LastLine {
        key: line.key,
        class: line.class,
    });
    if line.tsn.number > passed.greatest {
        passed.greatest = line.tsn.number;
    }
}

/// Passes the next line. It is refused only where it doesn't fit behind those before it. The time grows as the logarithm of their pages.
pub(crate) fn pass_line(passed: &mut Passed, pages: u32, line: &BackupLine) -> LineTurn
    ensures goes { result ≡ Goes → (lines : List Line) → ArePassed pages lines passed.old
        → ArePassed pages (lines ++ line.now ∷ []) passed.new }
    ensures few { result ≡ Goes → (bound : ℕ) → passed.old.greatest < bound
        → line.now.tsn.number < bound → passed.new.greatest < bound }
    ensures refused { result ≡ Refused → (lines others : List Line)
        → ArePassed pages lines passed.old → GoesOn lines others line.now → AreFitting pages others → ⊥ }
{
    let Some(page) = page_for(pages, line) else {
        return LineTurn::Refused;
    };
    match passage_of(passed.last, line) {
        Passage::NotBehind => LineTurn::Refused,
        Passage::SamePage => {
            note(passed, line);
            LineTurn::Goes
        }
        Passage::OtherPage => match add_page(&mut passed.pages, page) {
            PageTurn::New => {
                note(passed, line);
                LineTurn::Goes
            }
            PageTurn::Known => LineTurn::Refused,
            PageTurn::NoMemory => LineTurn::NoMemory,
        },
    }
}
