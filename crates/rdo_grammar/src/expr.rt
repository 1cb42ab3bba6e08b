//! Expressions and conditions. What is nested is parsed by function values, so that each production is proved by itself.

ghost use Rattle.std.specs.Prelude.{◌≡◌, IfOk, true, false};
ghost use Rattle.rdo_tokens.specs.Input.{Reads};
ghost use Rattle.rdo_grammar.specs.Grammar as spec;
ghost use Rattle.rdo_grammar.specs.Nests.{ParsesCond, ParsesTest, ParsesExpr};

use crate::range::{first, only, ranges, reference};
use rdb_types::{Boxed, Items};
use rdo_ast::syntax::{
    Arithmetic, Comparison, Condition, Conjunction, Expression, Inner, Operation, Statistic, Test,
};
use rdo_tokens::token::Kind;
use rdo_tokens::tokens::{Stop, Tokens};
use std::alloc::{AllocError, Global};

/// An operand and the operations on it, which is the operand alone where there are none.
fn chained(
    alloc: Global,
    first: Expression,
    operations: Items<Operation>,
) -> Result<Expression, AllocError>
    ensures { IfOk result (λ x. x ≡ spec.chained first operations) }
{
    if operations.is_empty() {
        Ok(first)
    } else {
        Ok(Expression::Chain(Boxed::new(alloc, first)?, operations))
    }
}

/// The comparison that a token stands for.
fn operator(kind: Kind) -> Option<Comparison>
    ensures { result ≡ spec.operator kind }
{
    match kind {
        Kind::Eq | Kind::Equal => Some(Comparison::Equal),
        Kind::Ne | Kind::Unequal => Some(Comparison::NotEqual),
        Kind::Gt | Kind::Greater => Some(Comparison::Greater),
        Kind::Ge | Kind::GreaterEqual => Some(Comparison::GreaterEqual),
        Kind::Lt | Kind::Less => Some(Comparison::Less),
        Kind::Le | Kind::LessEqual => Some(Comparison::LessEqual),
        _ => None,
    }
}

/// The productions of one level. What is nested in them is read by the function values.
#[derive(Clone, Copy)]
pub struct Grammar<C, T, E> {
    pub alloc: Global,
    /// How many levels may still be opened.
    pub depth: usize,
    pub cond: C,
    pub test: T,
    pub expr: E,
}

impl<
    C: Fn(Global, &mut Tokens<'_>, usize) -> Result<Condition, Stop>,
    T: Fn(Global, &mut Tokens<'_>, usize) -> Result<Test, Stop>,
    E: Fn(Global, &mut Tokens<'_>, usize, bool, bool) -> Result<Expression, Stop>,
> Grammar<C, T, E> {
    /// A condition of the next level.
    #[tactic(auto, unfolding(crate::specs::Grammar::cond_at))]
    fn next_cond(&self, tokens: &mut Tokens<'_>) -> Result<Condition, Stop>
        requires cond { ParsesCond self.now.depth (C.pre self.now.cond) (C.post self.now.cond) }
        requires test { ParsesTest self.now.depth (T.pre self.now.test) (T.post self.now.test) }
        requires expr { ParsesExpr self.now.depth (E.pre self.now.expr) (E.post self.now.expr) }
        ensures { Reads (spec.cond_at self.now.depth tokens.old) result tokens.new }
    {
        (self.cond)(self.alloc, tokens, self.depth)
    }

    /// A test of the next level.
    #[tactic(auto, unfolding(crate::specs::Grammar::test_at))]
    fn next_test(&self, tokens: &mut Tokens<'_>) -> Result<Test, Stop>
        requires cond { ParsesCond self.now.depth (C.pre self.now.cond) (C.post self.now.cond) }
        requires test { ParsesTest self.now.depth (T.pre self.now.test) (T.post self.now.test) }
        requires expr { ParsesExpr self.now.depth (E.pre self.now.expr) (E.post self.now.expr) }
        ensures { Reads (spec.test_at self.now.depth tokens.old) result tokens.new }
    {
        (self.test)(self.alloc, tokens, self.depth)
    }

    /// An expression of the next level, or a prim alone.
    #[tactic(auto, unfolding(crate::specs::Grammar::expr_at))]
    fn next_expr(
        &self,
        tokens: &mut Tokens<'_>,
        alone: bool,
        plain: bool,
    ) -> Result<Expression, Stop>
        requires cond { ParsesCond self.now.depth (C.pre self.now.cond) (C.post self.now.cond) }
        requires test { ParsesTest self.now.depth (T.pre self.now.test) (T.post self.now.test) }
        requires expr { ParsesExpr self.now.depth (E.pre self.now.expr) (E.post self.now.expr) }
        ensures { Reads (spec.expr_at self.now.depth alone plain tokens.old) result tokens.new }
    {
        (self.expr)(self.alloc, tokens, self.depth, alone, plain)
    }

    /// Takes a token that opens a level.
    #[tactic(auto, unfolding(crate::specs::Grammar::open_level))]
    pub fn open_level(&self, tokens: &mut Tokens<'_>) -> Result<(), Stop>
        requires cond { ParsesCond self.now.depth (C.pre self.now.cond) (C.post self.now.cond) }
        requires test { ParsesTest self.now.depth (T.pre self.now.test) (T.post self.now.test) }
        requires expr { ParsesExpr self.now.depth (E.pre self.now.expr) (E.post self.now.expr) }
        ensures { Reads (spec.open_level (spec.level_at self.now.depth) tokens.old) result tokens.new }
    {
        if self.depth == 0 {
            return Err(Stop::Offending);
        }
        tokens.take();
        Ok(())
    }

    /// `[ WITH cond ]`
    #[tactic(auto, unfolding(crate::specs::Grammar::with))]
    pub fn with(&self, tokens: &mut Tokens<'_>) -> Result<Option<Boxed<Condition>>, Stop>
        requires cond { ParsesCond self.now.depth (C.pre self.now.cond) (C.post self.now.cond) }
        requires test { ParsesTest self.now.depth (T.pre self.now.test) (T.post self.now.test) }
        requires expr { ParsesExpr self.now.depth (E.pre self.now.expr) (E.post self.now.expr) }
        ensures { Reads (spec.with (spec.level_at self.now.depth) tokens.old) result tokens.new }
    {
        if tokens.eat(Kind::With) {
            Ok(Some(Boxed::new(self.alloc, self.next_cond(tokens)?)?))
        } else {
            Ok(None)
        }
    }

    /// `[ FIRST number ] range { CROSS range } [ WITH cond ]`, or the same with one range alone.
    #[tactic(auto, unfolding(crate::specs::Grammar::inner))]
    fn inner(&self, tokens: &mut Tokens<'_>, is_single: bool) -> Result<Boxed<Inner>, Stop>
        requires cond { ParsesCond self.now.depth (C.pre self.now.cond) (C.post self.now.cond) }
        requires test { ParsesTest self.now.depth (T.pre self.now.test) (T.post self.now.test) }
        requires expr { ParsesExpr self.now.depth (E.pre self.now.expr) (E.post self.now.expr) }
        ensures { Reads (spec.inner (spec.level_at self.now.depth) is_single tokens.old) result tokens.new }
    {
        let first = first(tokens)?;
        let ranges = ranges(self.alloc, tokens, is_single)?;
        let condition = self.with(tokens)?;
        Ok(Boxed::new(
            self.alloc,
            Inner {
                first,
                ranges,
                condition,
            },
        )?)
    }

    /// `COUNT OF single`, after COUNT.
    #[tactic(auto, unfolding(crate::specs::Grammar::count))]
    fn count(&self, tokens: &mut Tokens<'_>) -> Result<Expression, Stop>
        requires cond { ParsesCond self.now.depth (C.pre self.now.cond) (C.post self.now.cond) }
        requires test { ParsesTest self.now.depth (T.pre self.now.test) (T.post self.now.test) }
        requires expr { ParsesExpr self.now.depth (E.pre self.now.expr) (E.post self.now.expr) }
        ensures { Reads (spec.count (spec.level_at self.now.depth) tokens.old) result tokens.new }
    {
        tokens.expect(Kind::Of)?;
        Ok(Expression::Count(self.inner(tokens, true)?))
    }

    /// `TOTAL expr OF single` and the like, after the first word.
    #[tactic(auto, unfolding(crate::specs::Grammar::statistic))]
    fn statistic(&self, tokens: &mut Tokens<'_>, which: Statistic) -> Result<Expression, Stop>
        requires cond { ParsesCond self.now.depth (C.pre self.now.cond) (C.post self.now.cond) }
        requires test { ParsesTest self.now.depth (T.pre self.now.test) (T.post self.now.test) }
        requires expr { ParsesExpr self.now.depth (E.pre self.now.expr) (E.post self.now.expr) }
        ensures { Reads (spec.statistic (spec.level_at self.now.depth) which tokens.old) result tokens.new }
    {
        let value = Boxed::new(self.alloc, self.next_expr(tokens, false, true)?)?;
        tokens.expect(Kind::Of)?;
        Ok(Expression::Statistic(which, value, self.inner(tokens, true)?))
    }

    /// `"-" prim`
    #[tactic(auto, unfolding(crate::specs::Grammar::minus))]
    fn minus(&self, tokens: &mut Tokens<'_>, plain: bool) -> Result<Expression, Stop>
        requires cond { ParsesCond self.now.depth (C.pre self.now.cond) (C.post self.now.cond) }
        requires test { ParsesTest self.now.depth (T.pre self.now.test) (T.post self.now.test) }
        requires expr { ParsesExpr self.now.depth (E.pre self.now.expr) (E.post self.now.expr) }
        ensures { Reads (spec.minus (spec.level_at self.now.depth) plain tokens.old) result tokens.new }
    {
        self.open_level(tokens)?;
        Ok(Expression::Negative(Boxed::new(self.alloc, self.next_expr(tokens, true, plain)?)?))
    }

    /// `"(" expr ")"`
    #[tactic(auto, unfolding(crate::specs::Grammar::parenthesized))]
    fn parenthesized(&self, tokens: &mut Tokens<'_>, plain: bool) -> Result<Expression, Stop>
        requires cond { ParsesCond self.now.depth (C.pre self.now.cond) (C.post self.now.cond) }
        requires test { ParsesTest self.now.depth (T.pre self.now.test) (T.post self.now.test) }
        requires expr { ParsesExpr self.now.depth (E.pre self.now.expr) (E.post self.now.expr) }
        ensures { Reads (spec.parenthesized (spec.level_at self.now.depth) plain tokens.old) result tokens.new }
    {
        self.open_level(tokens)?;
        let inner = self.next_expr(tokens, false, plain)?;
        tokens.expect(Kind::Close)?;
        Ok(inner)
    }

    /// A statistic that begins with this word.
    #[tactic(auto, unfolding(crate::specs::Grammar::statistic_by))]
    fn statistic_by(&self, tokens: &mut Tokens<'_>, kind: Kind) -> Result<Expression, Stop>
        requires cond { ParsesCond self.now.depth (C.pre self.now.cond) (C.post self.now.cond) }
        requires test { ParsesTest self.now.depth (T.pre self.now.test) (T.post self.now.test) }
        requires expr { ParsesExpr self.now.depth (E.pre self.now.expr) (E.post self.now.expr) }
        ensures { Reads (spec.statistic_by (spec.level_at self.now.depth) kind tokens.old) result tokens.new }
    {
        self.open_level(tokens)?;
        match kind {
            Kind::Count => self.count(tokens),
            Kind::Total => self.statistic(tokens, Statistic::Total),
            Kind::Min => self.statistic(tokens, Statistic::Minimum),
            _ => self.statistic(tokens, Statistic::Maximum),
        }
    }

    /// A number, a text, a reference, a negative, an expression in parentheses, or a statistic.
    #[tactic(auto, unfolding(crate::specs::Grammar::prim))]
    pub fn prim(&self, tokens: &mut Tokens<'_>, plain: bool) -> Result<Expression, Stop>
        requires cond { ParsesCond self.now.depth (C.pre self.now.cond) (C.post self.now.cond) }
        requires test { ParsesTest self.now.depth (T.pre self.now.test) (T.post self.now.test) }
        requires expr { ParsesExpr self.now.depth (E.pre self.now.expr) (E.post self.now.expr) }
        ensures { Reads (spec.prim (spec.level_at self.now.depth) plain tokens.old) result tokens.new }
    {
        match tokens.peek() {
            Kind::Number => {
                let number = tokens.number()?;
                Ok(Expression::Number(number.digits as i64, number.scale))
            }
            Kind::Quoted => Ok(Expression::Text(tokens.text(self.alloc)?)),
            Kind::Name => Ok(Expression::Field(reference(self.alloc, tokens)?)),
            Kind::Minus => self.minus(tokens, plain),
            Kind::Open => self.parenthesized(tokens, plain),
            kind @ (Kind::Count | Kind::Total | Kind::Min | Kind::Max) if !plain => {
                self.statistic_by(tokens, kind)
            }
            _ => Err(Stop::Offending),
        }
    }

    /// `{ "*" prim }`
    #[tactic(auto, unfolding(crate::specs::Grammar::products))]
    fn products(&self, tokens: &mut Tokens<'_>, plain: bool) -> Result<Items<Operation>, Stop>
        requires cond { ParsesCond self.now.depth (C.pre self.now.cond) (C.post self.now.cond) }
        requires test { ParsesTest self.now.depth (T.pre self.now.test) (T.post self.now.test) }
        requires expr { ParsesExpr self.now.depth (E.pre self.now.expr) (E.post self.now.expr) }
        ensures { Reads (spec.products (spec.level_at self.now.depth) plain tokens.old) result tokens.new }
    {
        let mut found = Items::new(self.alloc);
        for _turn in 0..tokens.left() {
            if !tokens.eat(Kind::Star) {
                return Ok(found);
            }
            let operand = self.prim(tokens, plain)?;
            found.push(Operation {
                operator: Arithmetic::Times,
                operand,
            })?;
        }
        Ok(found)
    }

    /// A term that begins with this operand.
    #[tactic(auto, unfolding(crate::specs::Grammar::term_after))]
    pub fn term_after(
        &self,
        tokens: &mut Tokens<'_>,
        plain: bool,
        first: Expression,
    ) -> Result<Expression, Stop>
        requires cond { ParsesCond self.now.depth (C.pre self.now.cond) (C.post self.now.cond) }
        requires test { ParsesTest self.now.depth (T.pre self.now.test) (T.post self.now.test) }
        requires expr { ParsesExpr self.now.depth (E.pre self.now.expr) (E.post self.now.expr) }
        ensures { Reads (spec.term_after (spec.level_at self.now.depth) plain first tokens.old) result tokens.new }
    {
        let operations = self.products(tokens, plain)?;
        Ok(chained(self.alloc, first, operations)?)
    }

    /// `term := prim { "*" prim }`
    #[tactic(auto, unfolding(crate::specs::Grammar::term))]
    fn term(&self, tokens: &mut Tokens<'_>, plain: bool) -> Result<Expression, Stop>
        requires cond { ParsesCond self.now.depth (C.pre self.now.cond) (C.post self.now.cond) }
        requires test { ParsesTest self.now.depth (T.pre self.now.test) (T.post self.now.test) }
        requires expr { ParsesExpr self.now.depth (E.pre self.now.expr) (E.post self.now.expr) }
        ensures { Reads (spec.term (spec.level_at self.now.depth) plain tokens.old) result tokens.new }
    {
        let left = self.prim(tokens, plain)?;
        self.term_after(tokens, plain, left)
    }

    /// A term behind its operator.
    #[tactic(auto, unfolding(crate::specs::Grammar::signed_term))]
    fn signed_term(
        &self,
        tokens: &mut Tokens<'_>,
        plain: bool,
        operator: Arithmetic,
    ) -> Result<Operation, Stop>
        requires cond { ParsesCond self.now.depth (C.pre self.now.cond) (C.post self.now.cond) }
        requires test { ParsesTest self.now.depth (T.pre self.now.test) (T.post self.now.test) }
        requires expr { ParsesExpr self.now.depth (E.pre self.now.expr) (E.post self.now.expr) }
        ensures { Reads (spec.signed_term (spec.level_at self.now.depth) plain operator tokens.old) result tokens.new }
    {
        let operand = self.term(tokens, plain)?;
        Ok(Operation { operator, operand })
    }

    /// `{ ( "+" | "-" ) term }`
    #[tactic(auto, unfolding(crate::specs::Grammar::sums))]
    fn sums(&self, tokens: &mut Tokens<'_>, plain: bool) -> Result<Items<Operation>, Stop>
        requires cond { ParsesCond self.now.depth (C.pre self.now.cond) (C.post self.now.cond) }
        requires test { ParsesTest self.now.depth (T.pre self.now.test) (T.post self.now.test) }
        requires expr { ParsesExpr self.now.depth (E.pre self.now.expr) (E.post self.now.expr) }
        ensures { Reads (spec.sums (spec.level_at self.now.depth) plain tokens.old) result tokens.new }
    {
        let mut found = Items::new(self.alloc);
        for _turn in 0..tokens.left() {
            if tokens.eat(Kind::Plus) {
                found.push(self.signed_term(tokens, plain, Arithmetic::Plus)?)?;
            } else if tokens.eat(Kind::Minus) {
                found.push(self.signed_term(tokens, plain, Arithmetic::Minus)?)?;
            } else {
                return Ok(found);
            }
        }
        Ok(found)
    }

    /// An expression that begins with this term.
    #[tactic(auto, unfolding(crate::specs::Grammar::expr_after))]
    pub fn expr_after(
        &self,
        tokens: &mut Tokens<'_>,
        plain: bool,
        first: Expression,
    ) -> Result<Expression, Stop>
        requires cond { ParsesCond self.now.depth (C.pre self.now.cond) (C.post self.now.cond) }
        requires test { ParsesTest self.now.depth (T.pre self.now.test) (T.post self.now.test) }
        requires expr { ParsesExpr self.now.depth (E.pre self.now.expr) (E.post self.now.expr) }
        ensures { Reads (spec.expr_after (spec.level_at self.now.depth) plain first tokens.old) result tokens.new }
    {
        let operations = self.sums(tokens, plain)?;
        Ok(chained(self.alloc, first, operations)?)
    }

    /// `expr := term { ( "+" | "-" ) term }`
    #[tactic(auto, unfolding(crate::specs::Grammar::expr))]
    pub fn expr(&self, tokens: &mut Tokens<'_>, plain: bool) -> Result<Expression, Stop>
        requires cond { ParsesCond self.now.depth (C.pre self.now.cond) (C.post self.now.cond) }
        requires test { ParsesTest self.now.depth (T.pre self.now.test) (T.post self.now.test) }
        requires expr { ParsesExpr self.now.depth (E.pre self.now.expr) (E.post self.now.expr) }
        ensures { Reads (spec.expr (spec.level_at self.now.depth) plain tokens.old) result tokens.new }
    {
        let left = self.term(tokens, plain)?;
        self.expr_after(tokens, plain, left)
    }

    /// The right side of a comparison.
    #[tactic(auto, unfolding(crate::specs::Grammar::compared))]
    fn compared(
        &self,
        tokens: &mut Tokens<'_>,
        op: Comparison,
        left: Expression,
    ) -> Result<Test, Stop>
        requires cond { ParsesCond self.now.depth (C.pre self.now.cond) (C.post self.now.cond) }
        requires test { ParsesTest self.now.depth (T.pre self.now.test) (T.post self.now.test) }
        requires expr { ParsesExpr self.now.depth (E.pre self.now.expr) (E.post self.now.expr) }
        ensures { Reads (spec.compared (spec.level_at self.now.depth) op left tokens.old) result tokens.new }
    {
        Ok(Test::Compare(op, left, self.expr(tokens, false)?))
    }

    /// `expr AND expr`, after BETWEEN.
    #[tactic(auto, unfolding(crate::specs::Grammar::between))]
    fn between(&self, tokens: &mut Tokens<'_>, left: Expression) -> Result<Test, Stop>
        requires cond { ParsesCond self.now.depth (C.pre self.now.cond) (C.post self.now.cond) }
        requires test { ParsesTest self.now.depth (T.pre self.now.test) (T.post self.now.test) }
        requires expr { ParsesExpr self.now.depth (E.pre self.now.expr) (E.post self.now.expr) }
        ensures { Reads (spec.between (spec.level_at self.now.depth) left tokens.old) result tokens.new }
    {
        let low = self.expr(tokens, false)?;
        tokens.expect(Kind::And)?;
        Ok(Test::Between(left, low, self.expr(tokens, false)?))
    }

    /// A test that begins with this expression.
    #[tactic(auto, unfolding(crate::specs::Grammar::compare_after))]
    fn compare_after(&self, tokens: &mut Tokens<'_>, left: Expression) -> Result<Test, Stop>
        requires cond { ParsesCond self.now.depth (C.pre self.now.cond) (C.post self.now.cond) }
        requires test { ParsesTest self.now.depth (T.pre self.now.test) (T.post self.now.test) }
        requires expr { ParsesExpr self.now.depth (E.pre self.now.expr) (E.post self.now.expr) }
        ensures { Reads (spec.compare_after (spec.level_at self.now.depth) left tokens.old) result tokens.new }
    {
        let kind = tokens.peek();
        if let Some(op) = operator(kind) {
            tokens.take();
            return self.compared(tokens, op, left);
        }
        match kind {
            Kind::Between => {
                tokens.take();
                self.between(tokens, left)
            }
            Kind::Containing => {
                tokens.take();
                Ok(Test::Containing(left, self.expr(tokens, false)?))
            }
            Kind::Starting => {
                tokens.take();
                tokens.expect(Kind::With)?;
                Ok(Test::StartingWith(left, self.expr(tokens, false)?))
            }
            Kind::Missing => {
                tokens.take();
                Ok(Test::Missing(left))
            }
            _ => Err(Stop::Offending),
        }
    }

    /// A test that begins with an expression.
    #[tactic(auto, unfolding(crate::specs::Grammar::compare))]
    fn compare(&self, tokens: &mut Tokens<'_>) -> Result<Test, Stop>
        requires cond { ParsesCond self.now.depth (C.pre self.now.cond) (C.post self.now.cond) }
        requires test { ParsesTest self.now.depth (T.pre self.now.test) (T.post self.now.test) }
        requires expr { ParsesExpr self.now.depth (E.pre self.now.expr) (E.post self.now.expr) }
        ensures { Reads (spec.compare (spec.level_at self.now.depth) tokens.old) result tokens.new }
    {
        let left = self.expr(tokens, false)?;
        self.compare_after(tokens, left)
    }

    /// `NOT test`
    #[tactic(auto, unfolding(crate::specs::Grammar::negated))]
    fn negated(&self, tokens: &mut Tokens<'_>) -> Result<Test, Stop>
        requires cond { ParsesCond self.now.depth (C.pre self.now.cond) (C.post self.now.cond) }
        requires test { ParsesTest self.now.depth (T.pre self.now.test) (T.post self.now.test) }
        requires expr { ParsesExpr self.now.depth (E.pre self.now.expr) (E.post self.now.expr) }
        ensures { Reads (spec.negated (spec.level_at self.now.depth) tokens.old) result tokens.new }
    {
        self.open_level(tokens)?;
        Ok(Test::Not(Boxed::new(self.alloc, self.next_test(tokens)?)?))
    }

    /// `"(" cond ")"`
    #[tactic(auto, unfolding(crate::specs::Grammar::grouped))]
    fn grouped(&self, tokens: &mut Tokens<'_>) -> Result<Test, Stop>
        requires cond { ParsesCond self.now.depth (C.pre self.now.cond) (C.post self.now.cond) }
        requires test { ParsesTest self.now.depth (T.pre self.now.test) (T.post self.now.test) }
        requires expr { ParsesExpr self.now.depth (E.pre self.now.expr) (E.post self.now.expr) }
        ensures { Reads (spec.grouped (spec.level_at self.now.depth) tokens.old) result tokens.new }
    {
        self.open_level(tokens)?;
        let inner = Boxed::new(self.alloc, self.next_cond(tokens)?)?;
        tokens.expect(Kind::Close)?;
        Ok(Test::Group(inner))
    }

    /// `ANY inner`
    #[tactic(auto, unfolding(crate::specs::Grammar::any))]
    fn any(&self, tokens: &mut Tokens<'_>) -> Result<Test, Stop>
        requires cond { ParsesCond self.now.depth (C.pre self.now.cond) (C.post self.now.cond) }
        requires test { ParsesTest self.now.depth (T.pre self.now.test) (T.post self.now.test) }
        requires expr { ParsesExpr self.now.depth (E.pre self.now.expr) (E.post self.now.expr) }
        ensures { Reads (spec.any (spec.level_at self.now.depth) tokens.old) result tokens.new }
    {
        self.open_level(tokens)?;
        Ok(Test::Any(self.inner(tokens, false)?))
    }

    /// `test := NOT test | "(" cond ")" | ANY inner | compare`
    #[tactic(auto, unfolding(crate::specs::Grammar::one_test))]
    pub fn test(&self, tokens: &mut Tokens<'_>) -> Result<Test, Stop>
        requires cond { ParsesCond self.now.depth (C.pre self.now.cond) (C.post self.now.cond) }
        requires test { ParsesTest self.now.depth (T.pre self.now.test) (T.post self.now.test) }
        requires expr { ParsesExpr self.now.depth (E.pre self.now.expr) (E.post self.now.expr) }
        ensures { Reads (spec.one_test (spec.level_at self.now.depth) tokens.old) result tokens.new }
    {
        match tokens.peek() {
            Kind::Not => self.negated(tokens),
            Kind::Open => self.grouped(tokens),
            Kind::Any => self.any(tokens),
            _ => self.compare(tokens),
        }
    }

    /// `test { AND test }`
    #[tactic(auto, unfolding(crate::specs::Grammar::tests, rdo_tokens::specs::Input::separated))]
    fn tests(&self, tokens: &mut Tokens<'_>) -> Result<Items<Test>, Stop>
        requires cond { ParsesCond self.now.depth (C.pre self.now.cond) (C.post self.now.cond) }
        requires test { ParsesTest self.now.depth (T.pre self.now.test) (T.post self.now.test) }
        requires expr { ParsesExpr self.now.depth (E.pre self.now.expr) (E.post self.now.expr) }
        ensures { Reads (spec.tests (spec.level_at self.now.depth) tokens.old) result tokens.new }
    {
        let mut found = only(self.alloc, self.test(tokens)?)?;
        for _turn in 0..tokens.left() {
            if !tokens.eat(Kind::And) {
                return Ok(found);
            }
            found.push(self.test(tokens)?)?;
        }
        Ok(found)
    }

    /// `conj := test { AND test }`
    #[tactic(auto, unfolding(crate::specs::Grammar::conj))]
    fn conj(&self, tokens: &mut Tokens<'_>) -> Result<Conjunction, Stop>
        requires cond { ParsesCond self.now.depth (C.pre self.now.cond) (C.post self.now.cond) }
        requires test { ParsesTest self.now.depth (T.pre self.now.test) (T.post self.now.test) }
        requires expr { ParsesExpr self.now.depth (E.pre self.now.expr) (E.post self.now.expr) }
        ensures { Reads (spec.conj (spec.level_at self.now.depth) tokens.old) result tokens.new }
    {
        let tests = self.tests(tokens)?;
        Ok(Conjunction { tests })
    }

    /// `conj { OR conj }`
    #[tactic(auto, unfolding(crate::specs::Grammar::conjunctions, rdo_tokens::specs::Input::separated))]
    fn conjunctions(&self, tokens: &mut Tokens<'_>) -> Result<Items<Conjunction>, Stop>
        requires cond { ParsesCond self.now.depth (C.pre self.now.cond) (C.post self.now.cond) }
        requires test { ParsesTest self.now.depth (T.pre self.now.test) (T.post self.now.test) }
        requires expr { ParsesExpr self.now.depth (E.pre self.now.expr) (E.post self.now.expr) }
        ensures { Reads (spec.conjunctions (spec.level_at self.now.depth) tokens.old) result tokens.new }
    {
        let mut found = only(self.alloc, self.conj(tokens)?)?;
        for _turn in 0..tokens.left() {
            if !tokens.eat(Kind::Or) {
                return Ok(found);
            }
            found.push(self.conj(tokens)?)?;
        }
        Ok(found)
    }

    /// `cond := conj { OR conj }`
    #[tactic(auto, unfolding(crate::specs::Grammar::cond))]
    pub fn cond(&self, tokens: &mut Tokens<'_>) -> Result<Condition, Stop>
        requires cond { ParsesCond self.now.depth (C.pre self.now.cond) (C.post self.now.cond) }
        requires test { ParsesTest self.now.depth (T.pre self.now.test) (T.post self.now.test) }
        requires expr { ParsesExpr self.now.depth (E.pre self.now.expr) (E.post self.now.expr) }
        ensures { Reads (spec.cond (spec.level_at self.now.depth) tokens.old) result tokens.new }
    {
        let conjunctions = self.conjunctions(tokens)?;
        Ok(Condition { conjunctions })
    }
}
