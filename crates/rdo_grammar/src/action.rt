//! Actions.

ghost use Rattle.std.specs.Prelude.{◌≡◌, true, false};
ghost use Rattle.rdo_tokens.specs.Input.{Reads};
ghost use Rattle.rdo_grammar.specs.Grammar as spec;
ghost use Rattle.rdo_grammar.specs.Nests.{ParsesAction};

use crate::nested::{expr_with, open_level, whole_expr};
use crate::range::{only, range, ref_from, reference};
use crate::selection::selection;
use rdb_types::{Chars, Items};
use rdo_ast::syntax::{Action, Assign, Assigns, Expression, PrintItem};
use rdo_tokens::token::Kind;
use rdo_tokens::tokens::{Stop, Tokens};
use std::alloc::Global;

/// `assign := ref "=" expr ";"`
#[tactic(auto, unfolding(crate::specs::Grammar::assign))]
fn assign(alloc: Global, tokens: &mut Tokens<'_>, depth: usize) -> Result<Assign, Stop>
    ensures { Reads (spec.assign depth tokens.old) result tokens.new }
{
    let left = reference(alloc, tokens)?;
    tokens.expect(Kind::Equal)?;
    let right = whole_expr(alloc, tokens, depth)?;
    tokens.expect(Kind::Semicolon)?;
    Ok(Assign { left, right })
}

/// `{ assign }`
#[tactic(auto, unfolding(crate::specs::Grammar::assigns))]
fn assigns(alloc: Global, tokens: &mut Tokens<'_>, depth: usize) -> Result<Assigns, Stop>
    ensures { Reads (spec.assigns depth tokens.old) result tokens.new }
{
    let mut found = Assigns::new(alloc);
    for _turn in 0..tokens.left() {
        if !tokens.sees(Kind::Name) {
            return Ok(found);
        }
        found.push(assign(alloc, tokens, depth)?)?;
    }
    Ok(found)
}

/// An expression that begins with a reference, after its point.
#[tactic(auto, unfolding(crate::specs::Grammar::printed_ref))]
fn printed_ref(
    alloc: Global,
    tokens: &mut Tokens<'_>,
    depth: usize,
    variable: Chars,
) -> Result<PrintItem, Stop>
    ensures { Reads (spec.printed_ref depth variable tokens.old) result tokens.new }
{
    let reference = ref_from(alloc, tokens, variable)?;
    let value = expr_with(alloc, tokens, depth, Expression::Field(reference))?;
    Ok(PrintItem::Value(value))
}

/// `name "." "*"`, or an expression that begins with a reference.
#[tactic(auto, unfolding(crate::specs::Grammar::printed_name))]
fn printed_name(alloc: Global, tokens: &mut Tokens<'_>, depth: usize) -> Result<PrintItem, Stop>
    ensures { Reads (spec.printed_name depth tokens.old) result tokens.new }
{
    let variable = tokens.name(alloc)?;
    tokens.expect(Kind::Dot)?;
    if tokens.eat(Kind::Star) {
        Ok(PrintItem::Fields(variable))
    } else {
        printed_ref(alloc, tokens, depth, variable)
    }
}

/// `printed := expr | name "." "*"`
#[tactic(auto, unfolding(crate::specs::Grammar::printed))]
fn printed(alloc: Global, tokens: &mut Tokens<'_>, depth: usize) -> Result<PrintItem, Stop>
    ensures { Reads (spec.printed depth tokens.old) result tokens.new }
{
    match tokens.peek() {
        Kind::Name => printed_name(alloc, tokens, depth),
        _ => Ok(PrintItem::Value(whole_expr(alloc, tokens, depth)?)),
    }
}

/// `printed { "," printed }`
#[tactic(auto, unfolding(crate::specs::Grammar::printed_list, rdo_tokens::specs::Input::separated))]
pub fn printed_list(
    alloc: Global,
    tokens: &mut Tokens<'_>,
    depth: usize,
) -> Result<Items<PrintItem>, Stop>
    ensures { Reads (spec.printed_list depth tokens.old) result tokens.new }
{
    let mut found = only(alloc, printed(alloc, tokens, depth)?)?;
    for _turn in 0..tokens.left() {
        if !tokens.eat(Kind::Comma) {
            return Ok(found);
        }
        found.push(printed(alloc, tokens, depth)?)?;
    }
    Ok(found)
}

/// Whether a token begins an action.
fn begins_action(kind: Kind) -> bool
    ensures { result ≡ spec.begins_action kind }
{
    matches!(
        kind,
        Kind::Store | Kind::For | Kind::Print | Kind::Modify | Kind::Erase
    )
}

/// `STORE name IN name USING { assign } END_STORE`, after STORE.
#[tactic(auto, unfolding(crate::specs::Grammar::store))]
fn store(alloc: Global, tokens: &mut Tokens<'_>, depth: usize) -> Result<Action, Stop>
    ensures { Reads (spec.store depth tokens.old) result tokens.new }
{
    let into = range(alloc, tokens)?;
    tokens.expect(Kind::Using)?;
    let values = assigns(alloc, tokens, depth)?;
    tokens.expect(Kind::EndStore)?;
    Ok(Action::Store(into, values))
}

/// `MODIFY name USING { assign } END_MODIFY`, after MODIFY.
#[tactic(auto, unfolding(crate::specs::Grammar::modify))]
fn modify(alloc: Global, tokens: &mut Tokens<'_>, depth: usize) -> Result<Action, Stop>
    ensures { Reads (spec.modify depth tokens.old) result tokens.new }
{
    let variable = tokens.name(alloc)?;
    tokens.expect(Kind::Using)?;
    let values = assigns(alloc, tokens, depth)?;
    tokens.expect(Kind::EndModify)?;
    Ok(Action::Modify(variable, values))
}

/// `PRINT printed { "," printed }`, after PRINT.
#[tactic(auto, unfolding(crate::specs::Grammar::print))]
fn print(alloc: Global, tokens: &mut Tokens<'_>, depth: usize) -> Result<Action, Stop>
    ensures { Reads (spec.print depth tokens.old) result tokens.new }
{
    Ok(Action::Print(printed_list(alloc, tokens, depth)?))
}

/// Actions that may hold actions, which a function value parses.
#[derive(Clone, Copy)]
pub struct Actions<A> {
    alloc: Global,
    /// How many levels may still be opened.
    depth: usize,
    action: A,
}

impl<A: Fn(Global, &mut Tokens<'_>, usize, bool) -> Result<Action, Stop>> Actions<A> {
    /// An action of the next level.
    fn next_action(&self, tokens: &mut Tokens<'_>) -> Result<Action, Stop>
        requires { ParsesAction self.now.depth (A.pre self.now.action) (A.post self.now.action) }
        ensures { Reads (spec.action_at self.now.depth true tokens.old) result tokens.new }
    {
        (self.action)(self.alloc, tokens, self.depth, true)
    }

    /// `{ action2 [ "." ] }`
    #[tactic(auto, unfolding(crate::specs::Grammar::body))]
    fn body(&self, tokens: &mut Tokens<'_>) -> Result<Items<Action>, Stop>
        requires { ParsesAction self.now.depth (A.pre self.now.action) (A.post self.now.action) }
        ensures { Reads (spec.body self.now.depth (spec.action_at self.now.depth true) tokens.old) result tokens.new }
    {
        let mut found = Items::new(self.alloc);
        for _turn in 0..tokens.left() {
            if !begins_action(tokens.peek()) {
                return Ok(found);
            }
            found.push(self.next_action(tokens)?)?;
            tokens.eat(Kind::Dot);
        }
        Ok(found)
    }

    /// `FOR selection { action2 [ "." ] } END_FOR`
    #[tactic(auto, unfolding(crate::specs::Grammar::for_action))]
    fn for_action(&self, tokens: &mut Tokens<'_>) -> Result<Action, Stop>
        requires { ParsesAction self.now.depth (A.pre self.now.action) (A.post self.now.action) }
        ensures { Reads (spec.for_action self.now.depth (spec.action_at self.now.depth true) tokens.old) result tokens.new }
    {
        open_level(self.alloc, tokens, self.depth)?;
        let over = selection(self.alloc, tokens, self.depth)?;
        let actions = self.body(tokens)?;
        tokens.expect(Kind::EndFor)?;
        Ok(Action::For(over, actions))
    }

    /// An action. MODIFY and ERASE stand only where it is nested in a FOR.
    #[tactic(auto, unfolding(crate::specs::Grammar::action))]
    fn action(&self, tokens: &mut Tokens<'_>, nested: bool) -> Result<Action, Stop>
        requires { ParsesAction self.now.depth (A.pre self.now.action) (A.post self.now.action) }
        ensures { Reads (spec.action self.now.depth (spec.action_at self.now.depth true) nested tokens.old) result tokens.new }
    {
        match tokens.peek() {
            Kind::Store => {
                tokens.take();
                store(self.alloc, tokens, self.depth)
            }
            Kind::For => self.for_action(tokens),
            Kind::Print => {
                tokens.take();
                print(self.alloc, tokens, self.depth)
            }
            Kind::Modify if nested => {
                tokens.take();
                modify(self.alloc, tokens, self.depth)
            }
            Kind::Erase if nested => {
                tokens.take();
                Ok(Action::Erase(tokens.name(self.alloc)?))
            }
            _ => Err(Stop::Offending),
        }
    }
}

/// An action. The depth is one more than the levels that may still be opened.
pub fn action(
    alloc: Global,
    tokens: &mut Tokens<'_>,
    depth: usize,
    nested: bool,
) -> Result<Action, Stop>
    ensures { Reads (spec.action_at depth nested tokens.old) result tokens.new }
{
    if depth == 0 {
        return Err(Stop::Offending);
    }
    Actions {
        alloc,
        depth: depth - 1,
        action,
    }
    .action(tokens, nested)
}
