use std::marker::Send;

/// What lies under a lock, of which two threads each work a piece outside it.
pub(crate) trait Bench {
    type Piece: Send + Drop;

    type Done: Send + Drop;

    /// The first's or the second's piece, where it is due.
    fn hand_out(&mut self, is_first: bool) -> Option<Self::Piece>;

    fn work(piece: Self::Piece) -> Self::Done;

    /// Takes back what was worked.
    fn take(&mut self, is_first: bool, done: Self::Done);
}
