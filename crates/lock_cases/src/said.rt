// What a line says.
use lock_needs::{Level, Need, Node};
use vms_queues::Mode;

/// A call, and what it is given: owners, needs and nodes. A mode stands before the node that it is on.
#[derive(Clone, Copy, Debug)]
pub struct Said<'a> {
    pub call: &'a str,
    pub owner: u32,
    pub other: u32,
    pub third: u32,
    pub need: Need,
    pub second: Need,
}

const NOWHERE: Node = Node {
    level: Level::Journal,
    area: 0,
    at: 0,
    line: 0,
};

const NOTHING: Need = Need {
    node: NOWHERE,
    mode: Mode::NL,
};

fn mode_of(word: &str) -> Option<Mode> {
    match word {
        "NL" => Some(Mode::NL),
        "CR" => Some(Mode::CR),
        "CW" => Some(Mode::CW),
        "PR" => Some(Mode::PR),
        "PW" => Some(Mode::PW),
        "EX" => Some(Mode::EX),
        _ => None,
    }
}

fn level_of(word: &str) -> Option<Level> {
    match word {
        "area" => Some(Level::Area),
        "range" => Some(Level::Range),
        "page" => Some(Level::Page),
        "line" => Some(Level::Line),
        "journal" => Some(Level::Journal),
        _ => None,
    }
}

fn number_of(word: Option<&str>) -> u32 {
    match word {
        Some(word) => word.parse::<u32>().unwrap_or(0),
        None => 0,
    }
}

// The node of a word as `line:16:65:3`.
fn node_of(word: &str) -> Option<Node> {
    let mut parts = word.split(':');
    let level = level_of(parts.next()?)?;
    let area = number_of(parts.next());
    let at = number_of(parts.next());
    let line = u16::try_from(number_of(parts.next())).unwrap_or(0);
    Some(Node {
        level,
        area,
        at,
        line,
    })
}

impl Said<'_> {
    // A number more.
    fn add_number(&mut self, number: u32) {
        if self.owner == 0 {
            self.owner = number;
        } else if self.other == 0 {
            self.other = number;
        } else {
            self.third = number;
        }
    }

    // A node more.
    fn add_node(&mut self, node: Node) {
        if self.need.node == NOWHERE {
            self.need.node = node;
        } else {
            self.second.node = node;
        }
    }

    // A mode more.
    fn add_mode(&mut self, mode: Mode) {
        if self.need.mode == Mode::NL {
            self.need.mode = mode;
        } else {
            self.second.mode = mode;
        }
    }

    fn add(&mut self, word: &str) {
        if let Some(mode) = mode_of(word) {
            self.add_mode(mode);
        } else if let Some(node) = node_of(word) {
            self.add_node(node);
        } else {
            self.add_number(number_of(Some(word)));
        }
    }
}

/// What the words say.
pub fn said_in(words: &str) -> Said<'_> {
    let mut words = words.split(' ');
    let mut said = Said {
        call: words.next().unwrap_or(""),
        owner: 0,
        other: 0,
        third: 0,
        need: NOTHING,
        second: NOTHING,
    };
    for word in words {
        said.add(word);
    }
    said
}
