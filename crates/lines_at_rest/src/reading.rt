// How a database at rest is read.
use before_images::BeforeImages;

/// What becomes of a page that fails its decoder.
#[derive(Clone, Copy, Debug, PartialEq, Eq)]
pub enum FaultyPages {
    /// The reading is refused with that page.
    Refused,
    /// Its lines are left out.
    LeftOut,
}

/// How a database at rest is read: which transactions are undone, and what becomes of pages that fail their decoders.
#[derive(Drop)]
pub struct RestReading {
    pub before: BeforeImages,
    pub faulty: FaultyPages,
}
