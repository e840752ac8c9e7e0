//! A stage that is under way: what was made so far, and the least fault so far.
ghost use Rattle.std.specs.Prelude.{◌≡◌, [], ◌∷◌, None, Ok, Err, OnOk};
ghost use Rattle.dw_query.specs.Stages.{joined};
ghost use Rattle.dw_query.specs.Outcomes.{came_to, least_after, so_far};

use dw_expr::ExecFault;
use dw_value::{Fault, List};
use std::alloc::{AllocError, Global};

/// What was made for the items so far, and the least fault that they met.
#[derive(Debug, Drop)]
pub(crate) struct UnderWay<T> {
    /// What was made before the first fault.
    pub(crate) made: List<T>,
    /// The least fault.
    pub(crate) least: Option<Fault>,
}

/// The least fault after one more.
fn least_after(least: Option<Fault>, fault: Fault) -> Fault
    ensures { result ≡ least_after least fault }
{
    match (least, fault) {
        (None, fault) => fault,
        (Some(Fault::Zero), Fault::Zero) => Fault::Zero,
        (Some(_), _) => Fault::Range,
    }
}

impl<T> UnderWay<T> {
    /// A stage that has just begun, in memory of `alloc`.
    pub(crate) fn new(alloc: Global) -> UnderWay<T>
        ensures made { result.made ≡ [] }
        ensures least { result.least ≡ None }
    {
        UnderWay {
            made: List::new(alloc),
            least: None,
        }
    }

    /// Takes one thing more that was made.
    pub(crate) fn push(&mut self, item: T) -> Result<(), AllocError>
    where
        T: Drop,
        ensures { OnOk result (so_far self.new.made self.new.least
            ≡ joined (so_far self.old.made self.old.least) (Ok (item ∷ []))) }
    {
        if self.least.is_none() {
            self.made.push(item)?;
        }
        Ok(())
    }

    /// Takes one fault more.
    pub(crate) fn fail(&mut self, fault: Fault)
        ensures { so_far self.new.made self.new.least ≡ joined (so_far self.old.made self.old.least) (Err fault) }
    {
        self.least = Some(least_after(self.least, fault));
    }

    /// What the stage came to.
    pub(crate) fn finish(self) -> Result<List<T>, ExecFault>
    where
        T: Drop,
        ensures { result ≡ came_to self.made self.least }
    {
        match self.least {
            None => Ok(self.made),
            Some(fault) => Err(ExecFault::Refused(fault)),
        }
    }
}
