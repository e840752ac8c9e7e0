//! The tuples of INSERT and the new values of UPDATE.
ghost use Rattle.std.specs.Prelude.{◌≡◌, [], false, IfOk, OnOk, map, position, List as Items, Option, Result};
ghost use Rattle.dw_expr.specs.Binding.{bound};
ghost use Rattle.dw_expr.specs.declared.faults.BindFault.{BindFault as Reason};
ghost use Rattle.dw_expr.specs.BoundTree.{BoundTree};
ghost use Rattle.dw_expr.specs.Sight.{same_name};
ghost use Rattle.dw_query.specs.Binding.{appended, beside, bound_parts, only_bound};
ghost use Rattle.dw_query.specs.BindingRows.{a_set, a_tuple, bound_change, bound_set, bound_tuple, bound_tuples, bound_values, change_with, clash_if, column_named, set_name, targets_in, tuples_of, wanted_for};
ghost use Rattle.dw_query.specs.declared.queries.BoundChange.{BoundChange as Change};
ghost use Rattle.dw_bind_query.specs.Parts.{Gives, so_far, wanted_at};

use crate::conditions::bind_condition;
use crate::lookup::{column_named, first_missing, is_repeated, names_for, wanted_by_names};
use crate::parts::{Parts, take_expr, take_tuple, told};
use dw_bind::{Sight, bind_expression};
use dw_expr::{BindFault, BoundExpr, Expr, NamedColumn, Wanted};
use dw_query::{Assignment, BoundChange, BoundTuples, Target};
use dw_value::{List, Text};
use std::alloc::{AllocError, Global};

/// The place of a name among these, from 0, if it is there.
fn place_in(names: &[Text], name: &Text) -> Option<usize>
    ensures { result ≡ position (same_name name.now) names.now }
{
    names.iter().position(|other| *name == *other)
}

/// The same in 32 bits.
fn place_of(names: &[Text], name: &Text) -> Result<Option<u32>, AllocError>
    ensures { IfOk result (λ place. place ≡ position (same_name name.now) names.now) }
{
    match place_in(names, name) {
        Some(place) => match u32::try_from(place) {
            Ok(place) => Ok(Some(place)),
            Err(_) => Err(AllocError),
        },
        None => Ok(None),
    }
}

/// A table's columns, where the columns of these names are given something.
fn targets_in(
    alloc: Global,
    names: &[Text],
    columns: &[NamedColumn],
) -> Result<List<Target>, AllocError>
    ensures { IfOk result (λ targets. targets ≡ targets_in names.now columns.now) }
{
    let mut targets = List::new(alloc);
    for column in columns {
        targets.push(Target {
            kind: column.kind,
            place: place_of(names, &column.name)?,
        })?;
    }
    Ok(targets)
}

/// What the expression at a place of a tuple has to be; past the columns anything.
fn wanted_at(wanted: &[Wanted], place: usize) -> Wanted
    ensures { result ≡ wanted_at wanted.now place }
{
    match wanted.get(place) {
        Some(wanted) => *wanted,
        None => Wanted::Anything,
    }
}

/// Takes an expression of a tuple, which knows no column.
fn take_value(
    alloc: Global,
    nothing: &Sight,
    wanted: Wanted,
    expr: &Expr,
    parts: &mut Parts<BoundExpr>,
) -> Result<(), AllocError>
    requires { nothing.now ≡ [] }
    ensures { OnOk result (so_far parts.new.made parts.new.refusal
        ≡ appended (so_far parts.old.made parts.old.refusal) (only_bound (bound [] false wanted expr.now))) }
{
    take_expr(bind_expression(alloc, expr, nothing, false, wanted), parts)
}

/// A tuple's expressions, which know no column.
fn bind_values(
    alloc: Global,
    nothing: &Sight,
    wanted: &[Wanted],
    tuple: &[Expr],
) -> Result<List<BoundExpr>, BindFault>
    requires { nothing.now ≡ [] }
    ensures { Gives (bound_values wanted.now tuple.now) result }
{
    let mut parts = Parts::new(alloc);
    for (place, expr) in tuple.iter().enumerate() {
        take_value(alloc, nothing, wanted_at(wanted, place), expr, &mut parts)?;
    }
    parts.finish()
}

/// A tuple, which has as many expressions as columns.
fn bind_tuple(
    alloc: Global,
    nothing: &Sight,
    wanted: &[Wanted],
    tuple: &[Expr],
) -> Result<List<BoundExpr>, BindFault>
    requires { nothing.now ≡ [] }
    ensures { Gives (bound_tuple wanted.now tuple.now) result }
{
    let values = bind_values(alloc, nothing, wanted, tuple)?;
    if tuple.len() == wanted.len() {
        Ok(values)
    } else {
        Err(BindFault::Clash)
    }
}

/// Takes a tuple.
fn take_bound_tuple(
    alloc: Global,
    nothing: &Sight,
    wanted: &[Wanted],
    tuple: &[Expr],
    parts: &mut Parts<List<BoundExpr>>,
) -> Result<(), AllocError>
    requires { nothing.now ≡ [] }
    ensures { OnOk result (so_far parts.new.made parts.new.refusal
        ≡ appended (so_far parts.old.made parts.old.refusal) (a_tuple wanted.now tuple.now)) }
{
    take_tuple(bind_tuple(alloc, nothing, wanted, tuple), parts)
}

/// Tuples, one after another.
fn bind_all(
    alloc: Global,
    wanted: &[Wanted],
    tuples: &[List<Expr>],
) -> Result<List<List<BoundExpr>>, BindFault>
    ensures { Gives (bound_parts (a_tuple wanted.now) tuples.now) result }
{
    let nothing = Sight::new(alloc, List::new(alloc))?;
    let mut parts = Parts::new(alloc);
    for tuple in tuples {
        take_bound_tuple(alloc, &nothing, wanted, tuple.as_slice(), &mut parts)?;
    }
    parts.finish()
}

/// Tuples for the columns of these names.
fn bind_for_names(
    alloc: Global,
    columns: &[NamedColumn],
    names: &[Text],
    tuples: &[List<Expr>],
) -> Result<BoundTuples, BindFault>
    ensures { Gives (tuples_of (targets_in names.now columns.now)
        (bound_parts (a_tuple (map (wanted_for columns.now) names.now)) tuples.now)) result }
{
    let targets = targets_in(alloc, names, columns)?;
    let wanted = wanted_by_names(alloc, columns, names)?;
    let tuples = bind_all(alloc, wanted.as_slice(), tuples)?;
    Ok(BoundTuples { targets, tuples })
}

/// The tuples of an INSERT into a table of these columns, of which these are listed, bound to the columns that they are
/// for: each of a table's columns has the place of its expression in a tuple. A listed name that is no column, and then a
/// name in a tuple, gives `Unknown` with the first such name, whatever else is wrong; a column that is listed twice, a
/// tuple of another width than its columns, and a kind that can't be assigned give `Clash`. `Memory` may come in place of
/// any answer: for want of memory, and where a place has no 32 bits.
pub fn bind_tuples(
    alloc: Global,
    columns: &[NamedColumn],
    listed: &[Text],
    tuples: &[List<Expr>],
) -> Result<BoundTuples, BindFault>
    ensures { Gives (bound_tuples columns.now listed.now tuples.now) result }
{
    if let Some(name) = first_missing(columns, listed) {
        return match name.copy() {
            Ok(name) => Err(BindFault::Unknown { name }),
            Err(_) => Err(BindFault::Memory),
        };
    }
    let names = names_for(alloc, columns, listed)?;
    let bound = bind_for_names(alloc, columns, names.as_slice(), tuples)?;
    if is_repeated(listed) {
        Err(BindFault::Clash)
    } else {
        Ok(bound)
    }
}

/// A new value: its column first, and then the names in it.
fn bind_set(
    alloc: Global,
    sight: &Sight,
    columns: &[NamedColumn],
    assignment: &Assignment,
) -> Result<BoundExpr, BindFault>
    ensures { Gives (bound_set sight.now assignment.now
        (column_named columns.now assignment.now.column)) result }
{
    match column_named(columns, &assignment.column) {
        Some(column) => bind_expression(
            alloc,
            &assignment.value,
            sight,
            false,
            Wanted::Assigned(column.kind),
        ),
        None => match assignment.column.copy() {
            Ok(name) => Err(BindFault::Unknown { name }),
            Err(_) => Err(BindFault::Memory),
        },
    }
}

/// Takes a new value.
fn take_set(
    alloc: Global,
    sight: &Sight,
    columns: &[NamedColumn],
    assignment: &Assignment,
    parts: &mut Parts<BoundExpr>,
) -> Result<(), AllocError>
    ensures { OnOk result (so_far parts.new.made parts.new.refusal
        ≡ appended (so_far parts.old.made parts.old.refusal) (a_set sight.now columns.now assignment.now)) }
{
    take_expr(bind_set(alloc, sight, columns, assignment), parts)
}

/// New values, one after another.
fn bind_sets(
    alloc: Global,
    sight: &Sight,
    columns: &[NamedColumn],
    sets: &[Assignment],
) -> Result<List<BoundExpr>, BindFault>
    ensures { Gives (bound_parts (a_set sight.now columns.now) sets.now) result }
{
    let mut parts = Parts::new(alloc);
    for assignment in sets {
        take_set(alloc, sight, columns, assignment, &mut parts)?;
    }
    parts.finish()
}

/// The names of the columns that are set.
fn set_names(alloc: Global, sets: &[Assignment]) -> Result<List<Text>, AllocError>
    ensures { IfOk result (λ names. names ≡ map set_name sets.now) }
{
    let mut names = List::new(alloc);
    for assignment in sets {
        names.push(assignment.column.copy()?)?;
    }
    Ok(names)
}

/// A change of these columns.
fn change_with(
    targets: List<Target>,
    sets: Result<List<BoundExpr>, BindFault>,
    keep: Result<Option<BoundExpr>, BindFault>,
) -> Result<BoundChange, BindFault>
    ensures { (due : Result (Items BoundTree) Reason) (kept : Result (Option BoundTree) Reason) →
        Gives due sets → Gives kept keep → Gives (beside (change_with targets) due kept) result }
{
    match sets {
        Ok(sets) => match keep {
            Ok(keep) => Ok(BoundChange {
                targets,
                sets,
                keep,
            }),
            Err(fault) => Err(fault),
        },
        Err(first) => match keep {
            Ok(_keep) => Err(first),
            Err(second) => Err(told(first, second)),
        },
    }
}

/// A clash where a column is set twice, unless the change is refused.
#[tactic(auto, using(crate::proofs::Gathering::clashed, crate::proofs::Gathering::not_clashed))]
fn clash_if(repeated: bool, bound: Result<BoundChange, BindFault>) -> Result<BoundChange, BindFault>
    ensures { (due : Result Change Reason) → Gives due bound → Gives (clash_if repeated due) result }
{
    match bound {
        Ok(_) if repeated => Err(BindFault::Clash),
        Ok(bound) => Ok(bound),
        Err(fault) => Err(fault),
    }
}

/// The new values of an UPDATE of a table of these columns, and its condition, bound to the columns in sight: each of the
/// table's columns has the place of its new value. A column that isn't the table's, and a name in a value or in the
/// condition that means no column in sight, gives `Unknown` with the first such name, whatever else is wrong; a column
/// that is set twice, and kinds that don't go together, give `Clash`. `Memory` may come in place of any answer: for want
/// of memory, and where a place has no 32 bits.
pub fn bind_change(
    alloc: Global,
    sight: &Sight,
    columns: &[NamedColumn],
    sets: &[Assignment],
    keep: &Option<Expr>,
) -> Result<BoundChange, BindFault>
    ensures { Gives (bound_change sight.now columns.now sets.now keep.now) result }
{
    let names = set_names(alloc, sets)?;
    let targets = targets_in(alloc, names.as_slice(), columns)?;
    let values = bind_sets(alloc, sight, columns, sets);
    let keep = bind_condition(alloc, sight, keep);
    let repeated = is_repeated(names.as_slice());
    clash_if(repeated, change_with(targets, values, keep))
}
