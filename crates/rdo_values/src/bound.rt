//! Bound forms: the tree of an expression, a condition or a selection with places beside its names. A reference keeps the name as it was written, and has the place of its value in the row of all bound variables, whose values stand one behind the other, the outermost variable's first.
use rdb_types::{Boxed, Chars, FieldType, Items};
use rdo_ast::syntax::{Arithmetic, Comparison, Range, Reference, Statistic};

/// A reference, the place of its value in the row of all bound variables, and the type of its field.
#[derive(Drop)]
pub struct BoundReference {
    pub reference: Reference,
    /// Counted from 0.
    pub place: usize,
    pub kind: FieldType,
}

/// A variable with its relation, the logical area of the relation, and the count of the relation's fields.
#[derive(Drop)]
pub struct BoundRange {
    pub range: Range,
    pub area: u32,
    pub width: usize,
}

/// The ranges of a CROSS, in the order of the text.
pub type BoundRanges = Items<BoundRange>;

/// What a statistic was found to give. It is put in the statistic's place before the rows are gone over.
#[derive(Drop)]
pub enum KnownValue {
    Missing,
    /// The digits without the point, and how many of them stand after it.
    Number(i64, u8),
    Text(Chars),
    Overflow,
}

/// What an ANY was found to say. It is put in its place before the rows are gone over.
#[derive(Clone, Copy, Debug, PartialEq, Eq)]
pub enum KnownTruth {
    True,
    False,
    Overflow,
}

#[cycle(bound_expression)]
#[derive(Drop)]
pub enum BoundExpression {
    /// The digits without the point, and how many of them stand after it.
    Number(i64, u8),
    Text(Chars),
    Field(BoundReference),
    Negative(Boxed<BoundExpression>),
    /// A first operand, and the operations on it from the left to the right.
    Chain(Boxed<BoundExpression>, Items<BoundOperation>),
    Count(Boxed<BoundInner>),
    Statistic(Statistic, Boxed<BoundExpression>, Boxed<BoundInner>),
    /// A statistic whose value is known for the row at hand.
    Known(Boxed<BoundExpression>, KnownValue),
}

/// An operator of a chain and the operand behind it.
#[cycle(bound_expression)]
#[derive(Drop)]
pub struct BoundOperation {
    pub operator: Arithmetic,
    pub operand: BoundExpression,
}

#[cycle(bound_expression)]
#[derive(Drop)]
pub enum BoundTest {
    Compare(Comparison, BoundExpression, BoundExpression),
    Between(BoundExpression, BoundExpression, BoundExpression),
    Containing(BoundExpression, BoundExpression),
    StartingWith(BoundExpression, BoundExpression),
    Missing(BoundExpression),
    Any(Boxed<BoundInner>),
    Not(Boxed<BoundTest>),
    /// A condition in parentheses.
    Group(Boxed<BoundCondition>),
    /// An ANY whose truth is known for the row at hand.
    Decided(Boxed<BoundTest>, KnownTruth),
}

/// Tests joined by AND, in the order of the text.
#[cycle(bound_expression)]
#[derive(Drop)]
pub struct BoundConjunction {
    pub tests: Items<BoundTest>,
}

/// Conjunctions joined by OR, in the order of the text.
#[cycle(bound_expression)]
#[derive(Drop)]
pub struct BoundCondition {
    pub conjunctions: Items<BoundConjunction>,
}

/// The first n tuples of ranges that a condition chooses, inside an expression or a condition. The values of its variables stand behind those of the variables outside.
#[cycle(bound_expression)]
#[derive(Drop)]
pub struct BoundInner {
    pub first: Option<u64>,
    pub ranges: BoundRanges,
    pub condition: Option<Boxed<BoundCondition>>,
}

#[derive(Drop)]
pub struct BoundSortKey {
    pub descending: bool,
    pub reference: BoundReference,
}

/// What stands behind the WITH of a FOR, in the order of the text.
#[derive(Drop)]
pub enum BoundClause {
    Sorted(Items<BoundSortKey>),
    Reduced(Items<BoundReference>),
}

/// The selection of a FOR.
#[derive(Drop)]
pub struct BoundSelection {
    pub inner: BoundInner,
    pub clauses: Items<BoundClause>,
}
