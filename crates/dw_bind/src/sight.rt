//! The columns in sight, found by their names.
ghost use Rattle.std.specs.Prelude.{◌≡◌, IfOk};
ghost use Rattle.std.specs.Option.{option_map};
ghost use Rattle.dw_expr.specs.Sight.{meant};
ghost use Rattle.dw_bind.specs.Hits.{found_of};

use crate::hits::{Found, found_in};
use crate::names::NameTable;
use dw_expr::NamedSource;
use dw_value::{List, Text};
use std::alloc::{AllocError, Global};
use std::marker::Model;

/// The sources in sight of an expression, from left to right. Contracts see the list of them. The names of their columns
/// are kept beside them, so that looking a name up takes no longer where there are more columns.
#[derive(Debug, Drop)]
pub struct Sight {
    sources: List<NamedSource>,
    names: NameTable,
}

impl Model for Sight {
    ghost use Rattle.std.specs.Prelude.{List as Items};
    ghost use Rattle.std.specs.Coded.{coded_list};
    ghost use Rattle.dw_expr.specs.declared.sight.NamedSource.{NamedSource};
    ghost use Rattle.dw_expr.specs.contracts.sight.NamedSource as source;

    ghost Value = { Items NamedSource };

    ghost coded = { coded_list source.the_row.coded };

    ghost use Rattle.dw_expr.specs.Sight.{row_columns};
    ghost use Rattle.dw_bind.specs.Names.{IsTableOf};

    ghost view = { λ sight. sight.sources };

    ghost invariant = { λ sight. IsTableOf sight.names (row_columns sight.sources) };
}

impl Sight {
    /// The sources in sight, from left to right, with their columns' names in memory of `alloc`.
    pub fn new(alloc: Global, sources: List<NamedSource>) -> Result<Sight, AllocError>
        ensures { IfOk result (λ sight. sight ≡ sources) }
    {
        let names = NameTable::new(alloc, sources.as_slice())?;
        Ok(Sight { sources, names })
    }

    /// The sources in sight, from left to right.
    pub fn sources(&self) -> &[NamedSource]
        ensures { result.now ≡ self.now }
    {
        self.sources.as_slice()
    }

    /// The column that a name means, after its source's name where that is written: `None` where there is none or more
    /// than one.
    pub(crate) fn find(&self, source: &Option<Text>, name: &Text) -> Option<Found>
        ensures { result ≡ option_map found_of
            (meant self.now (record { source = source.now; name = name.now })) }
    {
        found_in(self.names.hits(source, name))
    }
}
