ghost use Rattle.std.specs.Prelude.{◌≡◌};
ghost use Rattle.lock_needs.specs.Nodes.{is_above as level_contains, next_level, range_of, on_way as way_at, contains as is_within, is_on as reaches, step_towards as next_on_way, level_over as next_over, above_of};

use rdb_types::{Level, Node};

/// How many pages a range has.
const RANGE_PAGES: u32 = 64;

/// Whether nodes of the first level contain nodes of the second.
pub fn is_above(upper: Level, lower: Level) -> bool
    ensures { result ≡ level_contains upper lower }
{
    match (upper, lower) {
        (Level::Area, Level::Range | Level::Page | Level::Line) => true,
        (Level::Range, Level::Page | Level::Line) => true,
        (Level::Page, Level::Line) => true,
        _ => false,
    }
}

/// The level under this one; the lowest has none under it but itself.
pub fn level_under(level: Level) -> Level
    ensures { result ≡ next_level level }
{
    match level {
        Level::Area => Level::Range,
        Level::Range => Level::Page,
        Level::Page | Level::Line => Level::Line,
        Level::Journal => Level::Journal,
    }
}

// The number of the range in which a node of this level and place lies.
fn range_at(level: Level, at: u32) -> u32
    ensures { result ≡ range_of level at }
{
    match level {
        Level::Range => at,
        Level::Page | Level::Line => at.saturating_sub(1) / RANGE_PAGES,
        Level::Area | Level::Journal => 0,
    }
}

/// The node of this level that contains the node; the node itself at its own level.
pub fn on_way(level: Level, node: Node) -> Node
    ensures { result ≡ way_at level node }
{
    let (at, line) = (node.at, 0);
    let area = node.area;
    match (level, node.level) {
        (Level::Area, Level::Area) | (Level::Range, Level::Range) | (Level::Page, Level::Page) =>
            node,
        (Level::Area, _) => Node {
            level,
            area,
            at: 0,
            line,
        },
        (Level::Range, _) => Node {
            level,
            area,
            at: range_at(node.level, at),
            line,
        },
        (Level::Page, _) => Node {
            level,
            area,
            at,
            line,
        },
        (Level::Line | Level::Journal, _) => node,
    }
}

/// Whether the first node strictly contains the second.
pub fn contains(upper: Node, lower: Node) -> bool
    ensures { result ≡ is_within upper lower }
{
    is_above(upper.level, lower.level) && upper == on_way(upper.level, lower)
}

/// Whether the first node is the second or contains it.
pub fn is_on(upper: Node, lower: Node) -> bool
    ensures { result ≡ reaches upper lower }
{
    upper == lower || contains(upper, lower)
}

/// The node one level under the first on the way to the second.
pub fn step_towards(upper: Node, lower: Node) -> Node
    ensures { result ≡ next_on_way upper lower }
{
    on_way(level_under(upper.level), lower)
}

// The level over this one; the highest has none over it but itself.
fn level_over(level: Level) -> Level
    ensures { result ≡ next_over level }
{
    match level {
        Level::Area | Level::Range => Level::Area,
        Level::Page => Level::Range,
        Level::Line => Level::Page,
        Level::Journal => Level::Journal,
    }
}

/// The node next above; None where nothing contains the node.
pub fn node_above(node: Node) -> Option<Node>
    ensures { result ≡ above_of node }
{
    let over = level_over(node.level);
    if is_above(over, node.level) {
        Some(on_way(over, node))
    } else {
        None
    }
}
