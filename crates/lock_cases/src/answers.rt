// What calls answer, as text.
use lock_needs::{Level, Need, Node};
use vms_queues::Mode;

/// Writes the line of an answer.
pub fn tell(rt: &HostRuntime, answer: &str) {
    let _ = println!(rt; "  {answer}");
}

pub fn tell_truth(rt: &HostRuntime, answer: bool) {
    tell(rt, if answer { "yes" } else { "no" });
}

/// Owners behind a word that says what they are.
pub fn tell_owners(rt: &HostRuntime, what: &str, owners: &[u32]) {
    let _ = print!(rt; "  {what}");
    for owner in owners {
        let _ = print!(rt; " {owner}");
    }
    let _ = println!(rt; "");
}

pub fn mode_word(mode: Mode) -> &'static str {
    match mode {
        Mode::NL => "NL",
        Mode::CR => "CR",
        Mode::CW => "CW",
        Mode::PR => "PR",
        Mode::PW => "PW",
        Mode::EX => "EX",
    }
}

/// The mode, or none.
pub fn tell_mode(rt: &HostRuntime, mode: Option<Mode>) {
    tell(rt, mode.map_or("none", |mode| mode_word(mode)));
}

/// Writes ` line:16:65:3`.
pub fn put_node(rt: &HostRuntime, node: Node) {
    let Node { area, at, line, .. } = node;
    let _ = match node.level {
        Level::Area => print!(rt; " area:{area}"),
        Level::Range => print!(rt; " range:{area}:{at}"),
        Level::Page => print!(rt; " page:{area}:{at}"),
        Level::Line => print!(rt; " line:{area}:{at}:{line}"),
        Level::Journal => print!(rt; " journal"),
    };
}

/// A node behind a word.
pub fn tell_node(rt: &HostRuntime, what: &str, node: Node) {
    let _ = print!(rt; "  {what}");
    put_node(rt, node);
    let _ = println!(rt; "");
}

/// A need behind a word.
pub fn tell_need(rt: &HostRuntime, what: &str, need: Need) {
    let _ = print!(rt; "  {what} {}", mode_word(need.mode));
    put_node(rt, need.node);
    let _ = println!(rt; "");
}
