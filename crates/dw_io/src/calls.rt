//! The calls of a file or a sink in memory, of which some are to fail.
ghost use Rattle.std.specs.Prelude.{◌≡◌, ◌≤◌, if◌then◌else◌};
ghost use Rattle.dw_io.specs.Outside.{one_more};
ghost use Rattle.dw_io.specs.Memory.{fails_at};

use dw_value::List;

/// How many calls there were, which of them are to fail, and how many faults were counted.
#[derive(Debug, Drop)]
pub(crate) struct Calls {
    pub(crate) fails: List<u64>,
    pub(crate) made: u64,
    pub(crate) faults: u64,
}

impl Calls {
    /// No call yet. Those whose numbers, counted from 1, are in `fails` are to fail.
    pub(crate) fn new(fails: List<u64>) -> Calls
        ensures fails { result.fails ≡ fails }
        ensures made { result.made ≡ 0 }
        ensures faults { result.faults ≡ 0 }
    {
        Calls {
            fails,
            made: 0,
            faults: 0,
        }
    }

    /// Counts one more call, and says whether it is to fail; then it counts a fault too.
    pub(crate) fn begin(&mut self) -> bool
        ensures fails { self.new.fails ≡ self.old.fails }
        ensures made { self.new.made ≡ one_more self.old.made }
        ensures answer { result ≡ fails_at self.old.fails (one_more self.old.made) }
        ensures faults { self.new.faults ≡ (if result then one_more self.old.faults else self.old.faults) }
        ensures count { self.old.faults ≤ self.new.faults }
    {
        self.made = self.made.saturating_add(1);
        let is_to_fail = self.fails.as_slice().contains(&self.made);
        if is_to_fail {
            self.count_fault();
        }
        is_to_fail
    }

    /// Counts a fault.
    pub(crate) fn count_fault(&mut self)
        ensures fails { self.new.fails ≡ self.old.fails }
        ensures made { self.new.made ≡ self.old.made }
        ensures faults { self.new.faults ≡ one_more self.old.faults }
        ensures count { self.old.faults ≤ self.new.faults }
    {
        self.faults = self.faults.saturating_add(1);
    }
}
