use line_view::Stop;

/// Another row has the key of a unique index.
#[derive(Clone, Copy, Debug, PartialEq, Eq)]
pub struct Duplicate {}

/// Why work on an index stops. A bad line isn't the node that the index has there.
pub type IndexStop = Stop<Duplicate>;
