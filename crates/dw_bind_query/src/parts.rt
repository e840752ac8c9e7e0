//! Parts that are bound one after another: what was made so far, and why it is refused.
ghost use Rattle.std.specs.Prelude.{◌≡◌, [], ◌∷◌, None, Ok, Err, OnOk, List as Items, Result};
ghost use Rattle.dw_expr.specs.declared.faults.BindFault.{BindFault as Reason};
ghost use Rattle.dw_expr.specs.BoundTree.{BoundTree};
ghost use Rattle.dw_query.specs.Binding.{appended, first_refusal, only_bound};
ghost use Rattle.dw_bind_query.specs.Parts.{Gives, so_far, told};

use dw_expr::{BindFault, BoundExpr};
use dw_value::List;
use std::alloc::{AllocError, Global};

/// Of two refusals a name that means nothing, the first one, and else a clash.
pub(crate) fn first_refusal(first: BindFault, second: BindFault) -> BindFault
    ensures { result ≡ first_refusal first second }
{
    match first {
        BindFault::Unknown { name } => BindFault::Unknown { name },
        _ => match second {
            BindFault::Unknown { name } => BindFault::Unknown { name },
            _ => BindFault::Clash,
        },
    }
}

/// What two refusals come to that two calls gave, of which each may stand for any other where there was no memory.
pub(crate) fn told(first: BindFault, second: BindFault) -> BindFault
    ensures { result ≡ told first second }
{
    match first {
        BindFault::Memory => BindFault::Memory,
        first => match second {
            BindFault::Memory => BindFault::Memory,
            second => first_refusal(first, second),
        },
    }
}

/// The parts that were bound so far, and the refusal that counts so far.
#[derive(Debug, Drop)]
pub(crate) struct Parts<T> {
    /// What was made before the first refusal.
    pub(crate) made: List<T>,
    /// The refusal.
    pub(crate) refusal: Option<BindFault>,
}

impl<T> Parts<T> {
    /// No part yet, in memory of `alloc`.
    pub(crate) fn new(alloc: Global) -> Parts<T>
        ensures made { result.made ≡ [] }
        ensures refusal { result.refusal ≡ None }
    {
        Parts {
            made: List::new(alloc),
            refusal: None,
        }
    }

    /// Takes one part more.
    pub(crate) fn push(&mut self, part: T) -> Result<(), AllocError>
    where
        T: Drop,
        ensures { OnOk result (so_far self.new.made self.new.refusal
            ≡ appended (so_far self.old.made self.old.refusal) (Ok (part ∷ []))) }
    {
        if self.refusal.is_none() {
            self.made.push(part)?;
        }
        Ok(())
    }

    /// Takes one refusal more.
    pub(crate) fn refuse(&mut self, fault: BindFault)
        ensures { so_far self.new.made self.new.refusal
            ≡ appended (so_far self.old.made self.old.refusal) (Err fault) }
    {
        self.refusal = Some(match self.refusal.take() {
            None => fault,
            Some(first) => first_refusal(first, fault),
        });
    }

    /// What the parts come to.
    pub(crate) fn finish(self) -> Result<List<T>, BindFault>
    where
        T: Drop,
        ensures { result ≡ so_far self.made self.refusal }
    {
        let Parts { made, refusal } = self;
        match refusal {
            None => Ok(made),
            Some(fault) => Err(fault),
        }
    }
}

/// Takes an expression that was bound, or its refusal.
pub(crate) fn take_expr(
    bound: Result<BoundExpr, BindFault>,
    parts: &mut Parts<BoundExpr>,
) -> Result<(), AllocError>
    ensures { (due : Result BoundTree Reason) → Gives due bound → OnOk result (so_far parts.new.made parts.new.refusal
        ≡ appended (so_far parts.old.made parts.old.refusal) (only_bound due)) }
{
    match bound {
        Ok(expr) => parts.push(expr),
        Err(BindFault::Memory) => Err(AllocError),
        Err(fault) => {
            parts.refuse(fault);
            Ok(())
        }
    }
}

/// Takes a tuple that was bound, or its refusal.
pub(crate) fn take_tuple(
    bound: Result<List<BoundExpr>, BindFault>,
    parts: &mut Parts<List<BoundExpr>>,
) -> Result<(), AllocError>
    ensures { (due : Result (Items BoundTree) Reason) → Gives due bound → OnOk result
        (so_far parts.new.made parts.new.refusal ≡ appended (so_far parts.old.made parts.old.refusal) (only_bound due)) }
{
    match bound {
        Ok(tuple) => parts.push(tuple),
        Err(BindFault::Memory) => Err(AllocError),
        Err(fault) => {
            parts.refuse(fault);
            Ok(())
        }
    }
}
