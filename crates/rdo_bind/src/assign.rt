//! The assignments of STORE and MODIFY.
ghost use Rattle.std.specs.Prelude.{◌≡◌, map, IfOk};
ghost use Rattle.std.specs.List.{All};
ghost use Rattle.rdo_ast.specs.Views.{assignment_of};
ghost use Rattle.rdb_meaning.specs.Checks.{first_refusal, assignment_names};
ghost use Rattle.rdb_checks.specs.Answers.{Finds};
ghost use Rattle.rdo_values.specs.Rows.{variables_of};
ghost use Rattle.rdo_bind.specs.Assigning.{written_assign, IsBoundAssign};

use crate::expression::bind_expression;
use crate::reference::bind_reference;
use crate::refusal::no_such_name;
use rdb_checks::Stop;
use rdb_meaning::{Scope, Tables, same_name};
use rdb_types::{Chars, Items};
use rdo_ast::syntax::Assign;
use rdo_values::{BoundExpression, BoundReference};
use std::alloc::Global;

/// `E.K = expression;`, where E is the variable that is stored or modified.
#[derive(Drop)]
pub struct BoundAssign {
    pub left: BoundReference,
    pub right: BoundExpression,
}

/// Binds an assignment. It is refused where its left side doesn't name a field of the variable, and then by the names of its right side.
fn bind_assign(
    alloc: Global,
    tables: &Tables,
    scope: &Scope,
    variable: &Chars,
    assign: &Assign,
) -> Result<BoundAssign, Stop>
    ensures names { Finds result (assignment_names variable.now tables.now scope.now (assignment_of assign.now)) }
    ensures written { IfOk result (λ bound. written_assign bound ≡ assignment_of assign.now) }
    ensures bound { IfOk result (λ bound. IsBoundAssign tables.now (variables_of scope.now) bound) }
{
    if !same_name(variable, &assign.left.variable) {
        return Err(no_such_name(alloc, &assign.left.variable));
    }
    let left = bind_reference(alloc, tables, scope.as_slice(), &assign.left)?;
    let right = bind_expression(alloc, tables, scope, &assign.right)?;
    Ok(BoundAssign { left, right })
}

/// Binds the assignments of a STORE or a MODIFY of a variable, or refuses the first name that stands for nothing.
pub fn bind_assigns(
    alloc: Global,
    tables: &Tables,
    scope: &Scope,
    variable: &Chars,
    assigns: &[Assign],
) -> Result<Items<BoundAssign>, Stop>
    ensures names { Finds result (first_refusal (assignment_names variable.now tables.now scope.now) (map assignment_of assigns.now)) }
    ensures written { IfOk result (λ bound. map written_assign bound ≡ map assignment_of assigns.now) }
    ensures bound { IfOk result (λ bound. All (IsBoundAssign tables.now (variables_of scope.now)) bound) }
{
    let mut bound = Items::new(alloc);
    for assign in assigns {
        bound.push(bind_assign(alloc, tables, scope, variable, assign)?)?;
    }
    Ok(bound)
}
