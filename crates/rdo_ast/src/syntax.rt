//! The syntax tree of a statement. Chains of `+` and `-`, of `*`, of AND and of OR are lists, so that no tree is deeper than the constructs that are open at one place of its text.
use crate::backup::BackupNumber;
use rdb_types::{Boxed, Chars, FieldType, Items};

/// `E.K`: a variable and a field.
#[derive(Drop)]
pub struct Reference {
    pub variable: Chars,
    pub field: Chars,
}

/// `E IN T`: a variable and the relation over whose rows it goes.
#[derive(Drop)]
pub struct Range {
    pub variable: Chars,
    pub relation: Chars,
}

/// The ranges of a CROSS, in the order of the text.
pub type Ranges = Items<Range>;

#[derive(Clone, Copy, PartialEq, Eq)]
pub enum Comparison {
    Equal,
    NotEqual,
    Greater,
    GreaterEqual,
    Less,
    LessEqual,
}

#[derive(Clone, Copy, PartialEq, Eq)]
pub enum Statistic {
    Total,
    Minimum,
    Maximum,
}

#[derive(Clone, Copy, PartialEq, Eq)]
pub enum Arithmetic {
    Plus,
    Minus,
    Times,
}

#[cycle(expression)]
#[derive(Drop)]
pub enum Expression {
    /// The digits without the point, and how many of them stand after it. As it is read, the digits are no negative number, and at most 9 stand after the point.
    Number(i64, u8),
    Text(Chars),
    Field(Reference),
    Negative(Boxed<Expression>),
    /// A first operand, and the operations on it from the left to the right: as it is read, `+` and `-` alone or `*` alone, and at least one.
    Chain(Boxed<Expression>, Items<Operation>),
    Count(Boxed<Inner>),
    Statistic(Statistic, Boxed<Expression>, Boxed<Inner>),
}

/// An operator of a chain and the operand behind it.
#[cycle(expression)]
#[derive(Drop)]
pub struct Operation {
    pub operator: Arithmetic,
    pub operand: Expression,
}

#[cycle(expression)]
#[derive(Drop)]
pub enum Test {
    Compare(Comparison, Expression, Expression),
    Between(Expression, Expression, Expression),
    Containing(Expression, Expression),
    StartingWith(Expression, Expression),
    Missing(Expression),
    Any(Boxed<Inner>),
    Not(Boxed<Test>),
    /// A condition in parentheses.
    Group(Boxed<Condition>),
}

/// Tests joined by AND, in the order of the text. As it is read there is at least one.
#[cycle(expression)]
#[derive(Drop)]
pub struct Conjunction {
    pub tests: Items<Test>,
}

/// Conjunctions joined by OR, in the order of the text. As it is read there is at least one.
#[cycle(expression)]
#[derive(Drop)]
pub struct Condition {
    pub conjunctions: Items<Conjunction>,
}

/// `FIRST n X IN R CROSS Y IN S WITH condition`, inside an expression or a condition.
#[cycle(expression)]
#[derive(Drop)]
pub struct Inner {
    pub first: Option<u64>,
    pub ranges: Ranges,
    pub condition: Option<Boxed<Condition>>,
}

#[derive(Drop)]
pub struct SortKey {
    pub descending: bool,
    pub reference: Reference,
}

/// What stands behind the WITH of a FOR, in the order of the text.
#[derive(Drop)]
pub enum Clause {
    Sorted(Items<SortKey>),
    Reduced(Items<Reference>),
}

#[derive(Drop)]
pub struct Selection {
    pub inner: Inner,
    pub clauses: Items<Clause>,
}

/// `E.K = expression;`
#[derive(Drop)]
pub struct Assign {
    pub left: Reference,
    pub right: Expression,
}

pub type Assigns = Items<Assign>;

#[derive(Drop)]
pub enum PrintItem {
    Value(Expression),
    /// `E.*`
    Fields(Chars),
}

#[derive(Drop)]
pub enum Action {
    Store(Range, Assigns),
    For(Selection, Items<Action>),
    Print(Items<PrintItem>),
    Modify(Chars, Assigns),
    Erase(Chars),
}

#[derive(Clone, Copy, PartialEq, Eq)]
pub enum Share {
    Shared,
    Protected,
    Exclusive,
}

#[derive(Drop)]
pub struct Reservation {
    pub relation: Chars,
    pub share: Share,
    pub writes: bool,
}

pub type Reservations = Items<Reservation>;

#[derive(Drop)]
pub enum DefinedType {
    Own(FieldType),
    BasedOn(Chars),
}

#[derive(Drop)]
pub struct FieldDefinition {
    pub name: Chars,
    pub kind: DefinedType,
}

#[derive(Drop)]
pub struct IndexDefinition {
    pub name: Chars,
    pub relation: Chars,
    pub unique: bool,
    pub fields: Items<Chars>,
}

#[derive(Drop)]
pub enum Statement {
    Invoke(Chars),
    StartReadOnly,
    StartReadWrite {
        /// Whether it waits for locks.
        wait: bool,
        reserved: Reservations,
    },
    Commit,
    Rollback,
    Finish,
    /// `$ RMU/BACKUP/ONLINE n`: the lines that are committed now go into the backup of this number.
    BackUp(BackupNumber),
    Act(Action),
    DefineField(Chars, FieldType),
    DefineRelation(Chars, Items<FieldDefinition>),
    DefineIndex(IndexDefinition),
    DeleteRelation(Chars),
    DeleteIndex(Chars),
}

/// What a script holds: a statement, or the line and column of a token with which no statement goes on.
pub enum Item {
    Statement(Statement),
    SyntaxAt { line: u32, column: u32 },
}

// By hand, so that it is one call wherever one is let go.
impl Drop for Item {
    fn drop(self) {
        match self {
            Item::Statement(_statement) => {}
            Item::SyntaxAt {
                line: _line,
                column: _column,
            } => {}
        }
    }
}
