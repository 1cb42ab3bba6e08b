// Why the writing of a row stops.
use line_view::Stop;
use stored_rows::Unstored;

/// Why an index doesn't take the pair of a row.
#[derive(Clone, Copy, Debug, PartialEq, Eq)]
pub enum PairRefusal {
    /// The index is unique, and another row has the key.
    Duplicate,
    /// The key takes more than 120 bytes, or can't be laid out.
    LongKey,
    /// A tree of 255 levels would have to be one higher, or there are no more numbers for rooms.
    Full,
}

/// Why a row isn't written.
#[derive(Clone, Copy, Debug, PartialEq, Eq)]
pub enum RowRefusal {
    /// It has no image.
    NoImage(Unstored),
    /// There are no more numbers for rooms of the relation.
    NoRoom,
    /// The index at this place among those of the relation doesn't take its pair.
    Pair { at: usize, refusal: PairRefusal },
}

/// Why an index doesn't take the pair of a row, or why the work on it stops before that is known.
pub type PairStop = Stop<PairRefusal>;

/// Why the writing of a row stops. A bad line is one that no sound map has so.
pub type RowStop = Stop<RowRefusal>;
