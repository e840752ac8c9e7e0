//! Conditions: what stands after WHERE.
ghost use Rattle.dw_query.specs.Binding.{bound_condition};
ghost use Rattle.dw_bind_query.specs.Parts.{Gives};

use dw_bind::{Sight, bind_expression};
use dw_expr::{BindFault, BoundExpr, Expr, Wanted};
use std::alloc::Global;

/// A condition, if there is one, bound to the columns in sight, or what it is refused for. `Memory` may come in place of
/// any answer.
pub fn bind_condition(
    alloc: Global,
    sight: &Sight,
    condition: &Option<Expr>,
) -> Result<Option<BoundExpr>, BindFault>
    ensures { Gives (bound_condition sight.now condition.now) result }
{
    let Some(condition) = condition else {
        return Ok(None);
    };
    match bind_expression(alloc, condition, sight, false, Wanted::Condition) {
        Ok(bound) => Ok(Some(bound)),
        Err(fault) => Err(fault),
    }
}
