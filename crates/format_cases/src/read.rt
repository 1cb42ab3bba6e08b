// What reading comes to.

/// What bytes are read as.
#[derive(Clone, Copy, PartialEq, Eq, Debug)]
pub enum Read {
    /// They are none of their kind.
    Refused,
    /// A value that is written as these bytes.
    Same,
    /// A value that is written as others.
    Other,
}

pub fn compared(is_same: bool) -> Read {
    if is_same { Read::Same } else { Read::Other }
}

/// How often each was read.
#[derive(Clone, Copy, Debug, PartialEq, Eq)]
pub struct Counts {
    pub refused: u32,
    pub same: u32,
    pub other: u32,
}

pub const NONE: Counts = Counts {
    refused: 0,
    same: 0,
    other: 0,
};

impl Counts {
    pub fn add(&mut self, read: Read) {
        match read {
            Read::Refused => self.refused = self.refused.wrapping_add(1),
            Read::Same => self.same = self.same.wrapping_add(1),
            Read::Other => self.other = self.other.wrapping_add(1),
        }
    }
}

pub fn tell_read(rt: &HostRuntime, read: Read) {
    let _ = match read {
        Read::Refused => println!(rt; "  refused"),
        Read::Same => println!(rt; "  written as the same bytes"),
        Read::Other => println!(rt; "  WRITTEN AS OTHER BYTES"),
    };
}

pub fn tell_counts(rt: &HostRuntime, counts: Counts) {
    let Counts {
        refused,
        same,
        other,
    } = counts;
    let read = refused.wrapping_add(same);
    let _ = println!(rt; "  {read} refused or written as the same bytes, {other} as others");
}
