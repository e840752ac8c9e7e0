//! What the program knows of the files that it reads and of the sink that it writes to.
ghost use Rattle.std.specs.Prelude.{◌≡◌, ℕ, ◌<◌, ◌≤◌, List, [], ◌++◌, length, take, Option, IsSome, IfOk, OnErr};
ghost use Rattle.dw_io.specs.Outside.{Held, Rose, appended};

/// What a look for a name gave.
#[derive(Clone, Copy, Debug, PartialEq, Eq)]
pub enum Looked {
    /// The file is there, and is the current one.
    Found,
    /// There is nothing under that name.
    Absent,
}

/// Something went wrong with a file, other than that its name isn't there.
#[derive(Clone, Copy, Debug, PartialEq, Eq)]
pub struct FileFault;

/// A piece could not be written.
#[derive(Clone, Copy, Debug, PartialEq, Eq)]
pub struct SinkFault;

/// Named files that are read one after another, each from its start.
///
/// At most one file is the current one. Every fault is counted, so a caller can tell afterwards whether there was one.
pub trait Files {
    /// Where it is told: the bytes under each name.
    ghost held: { Self → Option Held };

    /// Where `held` is told: what of the current file wasn't read yet. It is `[]` where no file is current.
    ghost left: { Self → List ℕ };

    /// The count of faults, of 64 bits, which stops at its greatest number.
    ghost faults: { Self → ℕ };

    /// Makes the file `name` the current one, at its start. Where there is none of that name, no file is current
    /// afterwards. A fault leaves the current file as it was.
    fn look(&mut self, name: &str) -> Result<Looked, FileFault>
        ensures keeps { held self.new ≡ held self.old }
        ensures count { faults self.old ≤ faults self.new }
        ensures fault { OnErr result (Rose (faults self.old) (faults self.new)) }
        ensures found { (h : Held) → held self.old ≡ Some h → result ≡ Ok Looked.Found →
            h name.now ≡ Some (left self.new) }
        ensures absent { (h : Held) → held self.old ≡ Some h → result ≡ Ok Looked.Absent → h name.now ≡ None }
        ensures nothing { IsSome (held self.old) → result ≡ Ok Looked.Absent → left self.new ≡ [] }
        ensures stands { IsSome (held self.old) → OnErr result (left self.new ≡ left self.old) };

    /// Puts the next bytes of the current file into the front of `buf`, and gives their number. For a buffer that
    /// isn't empty, 0 says that the file is at its end, or that none is current.
    fn read(&mut self, buf: &mut [u8]) -> Result<usize, FileFault>
        ensures keeps { held self.new ≡ held self.old }
        ensures count { faults self.old ≤ faults self.new }
        ensures fault { OnErr result (Rose (faults self.old) (faults self.new)) }
        ensures bound { IfOk result (λ n. n ≤ length buf.new) }
        ensures bytes { IsSome (held self.old) → IfOk result (λ n. left self.old ≡ take n buf.new ++ left self.new) }
        ensures end { IsSome (held self.old) → 0 < length buf.old → result ≡ Ok 0 → left self.old ≡ [] }
        ensures stands { IsSome (held self.old) → OnErr result (left self.new ≡ left self.old) };
}

/// What takes the bytes of a report.
pub trait Sink {
    /// Where it is told: the bytes so far.
    ghost has: { Self → Option (List ℕ) };

    /// The count of faults, of 64 bits, which stops at its greatest number.
    ghost faults: { Self → ℕ };

    /// Takes the first bytes of `piece`, and gives their number. Of a piece that isn't empty it takes at least one,
    /// or answers a fault and takes none.
    fn write(&mut self, piece: &[u8]) -> Result<usize, SinkFault>
        ensures count { faults self.old ≤ faults self.new }
        ensures fault { OnErr result (Rose (faults self.old) (faults self.new)) }
        ensures bound { IfOk result (λ n. n ≤ length piece.now) }
        ensures some { 0 < length piece.now → IfOk result (λ n. 0 < n) }
        ensures takes { IfOk result (λ n. has self.new ≡ appended (has self.old) (take n piece.now)) }
        ensures stands { OnErr result (has self.new ≡ has self.old) };
}
