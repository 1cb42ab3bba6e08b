// The words of the cases.
ghost use Rattle.std.specs.Prelude.{IfSome};
ghost use Rattle.line_store.specs.Seats.{IsMember};

use crate::answer::Answer;
use crate::desk::Desk;
use case_words::{image_of, key_of, number_of, put_bytes, put_key};
use line_store::LineStore;
use line_view::{Known, Seen, View, Write};
use rdb_types::{Dbkey, Session};

/// A session, if the word is a number of one.
fn session_of(word: &str) -> Option<Session>
    ensures { IfSome result (λ s. IsMember s.number) }
{
    match number_of(Some(word)) {
        Some(number) if number >= 1 && number <= 16 => Some(Session { number }),
        _ => None,
    }
}

fn put_answer(rt: &HostRuntime, answer: Answer) {
    match answer {
        Answer::NotNow => tell(rt, "not now"),
        Answer::Done => tell(rt, "done"),
        Answer::More => tell(rt, "more"),
        Answer::Committed => tell(rt, "committed"),
        Answer::Recovered(true) => tell(rt, "recovered, committed"),
        Answer::Recovered(false) => tell(rt, "recovered, undone"),
        Answer::Room(key) => {
            let _ = print!(rt; " ");
            put_key(rt, key);
            let _ = println!(rt; "");
        }
        Answer::Taken => tell(rt, "taken otherwise"),
        Answer::Full(limit) => {
            let _ = println!(rt; "  full at {limit}");
        }
        Answer::Unfit => tell(rt, "unfit"),
        Answer::NoMemory => tell(rt, "no memory"),
        Answer::Fails => tell(rt, "fails"),
    }
}

fn tell(rt: &HostRuntime, text: &str) {
    let _ = println!(rt; "  {text}");
}

fn put_line(rt: &HostRuntime, known: &Known, key: Dbkey) {
    match known.line(key) {
        Seen::Unknown => tell(rt, "unknown"),
        Seen::Absent => tell(rt, "no line"),
        Seen::Present(bytes) => {
            let _ = print!(rt; " ");
            put_bytes(rt, bytes);
            let _ = println!(rt; "");
        }
    }
}

/// Reads a line.
fn say_line<L: LineStore + Drop>(rt: &HostRuntime, desk: &mut Desk<L>, s: Session, word: &str)
    requires { IsMember s.number }
{
    let Some(key) = key_of(word) else {
        return tell(rt, "NO SUCH KEY");
    };
    let mut known = Known::new(rt.alloc());
    match desk.learn_line(s, key, &mut known) {
        Answer::Done => put_line(rt, &known, key),
        answer => put_answer(rt, answer),
    }
}

/// Reads the lines of an area.
fn say_area<L: LineStore + Drop>(rt: &HostRuntime, desk: &mut Desk<L>, s: Session, word: &str)
    requires { IsMember s.number }
{
    let area = number_of(Some(word)).unwrap_or(0);
    let mut known = Known::new(rt.alloc());
    let answer = desk.learn_area(s, area, &mut known);
    if answer != Answer::Done {
        return put_answer(rt, answer);
    }
    let _ = print!(rt; " ");
    if let Some(keys) = known.area(area) {
        for key in keys {
            put_key(rt, *key);
        }
    }
    let _ = println!(rt; "");
}

/// Stores a line, or erases it where no image is said.
fn say_write<L: LineStore + Drop>(rt: &HostRuntime, desk: &mut Desk<L>, s: Session, words: &str)
    requires { IsMember s.number }
{
    let (word, rest) = words.split_once(' ').unwrap_or((words, ""));
    let Some(key) = key_of(word) else {
        return tell(rt, "NO SUCH KEY");
    };
    let write = Write {
        key,
        image: image_of(rest),
    };
    let answer = desk.change(s, &[write]);
    put_answer(rt, answer);
}

/// Names a room in an area of a class, behind a line or from the first.
fn say_room<L: LineStore + Drop>(rt: &HostRuntime, desk: &mut Desk<L>, s: Session, words: &str)
    requires { IsMember s.number }
{
    let mut parts = words.split(' ');
    let area = number_of(parts.next()).unwrap_or(0);
    let class = number_of(parts.next()).unwrap_or(0);
    let from = key_of(parts.next().unwrap_or(""));
    put_answer(
        rt,
        desk.room(s, area, u16::try_from(class).unwrap_or(0), from),
    );
}

/// Takes the page of a room for a class.
fn say_take<L: LineStore + Drop>(rt: &HostRuntime, desk: &mut Desk<L>, s: Session, words: &str)
    requires { IsMember s.number }
{
    let (word, rest) = words.split_once(' ').unwrap_or((words, ""));
    let Some(key) = key_of(word) else {
        return tell(rt, "NO SUCH KEY");
    };
    let class = number_of(Some(rest)).unwrap_or(0);
    let answer = desk.take_room(s, key, u16::try_from(class).unwrap_or(0));
    put_answer(rt, answer);
}

/// Begins a reader whose lines go into the backup of a number.
fn say_copy<L: LineStore + Drop>(rt: &HostRuntime, desk: &mut Desk<L>, s: Session, word: &str)
    requires { IsMember s.number }
{
    let number = number_of(Some(word)).unwrap_or(0);
    let answer = desk.begin_copy(s, number);
    put_answer(rt, answer);
}

/// Makes the call that a line names, as `write 1 16:2:0 0a`.
pub fn say<L: LineStore + Drop>(rt: &HostRuntime, desk: &mut Desk<L>, text: &str) {
    let (word, rest) = text.split_once(' ').unwrap_or((text, ""));
    let (number, rest) = rest.split_once(' ').unwrap_or((rest, ""));
    let Some(s) = session_of(number) else {
        return;
    };
    match word {
        "line" => say_line(rt, desk, s, rest),
        "area" => say_area(rt, desk, s, rest),
        "write" => say_write(rt, desk, s, rest),
        "room" => say_room(rt, desk, s, rest),
        "take" => say_take(rt, desk, s, rest),
        "copy" => say_copy(rt, desk, s, rest),
        _ => say_call(rt, desk, s, word),
    }
}

fn say_call<L: LineStore + Drop>(rt: &HostRuntime, desk: &mut Desk<L>, s: Session, word: &str)
    requires { IsMember s.number }
{
    let answer = match word {
        "begin" => desk.begin(s),
        "reader" => desk.begin_reading(s),
        "end" => desk.end_reading(s),
        "prepare" => desk.prepare(s),
        "back" => desk.give_back(s),
        "commit" => desk.commit(s),
        "rollback" => desk.roll_back(s),
        "die" => desk.die(s),
        "step" => desk.step(s),
        "finish" => desk.finish(s),
        _ => return tell(rt, "NO SUCH CASE"),
    };
    put_answer(rt, answer);
}
