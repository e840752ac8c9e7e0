//! A law of snapshots and commits.
ghost use Rattle.std.specs.Prelude.{◌≡◌, ◌<◌, ◌≤◌, ◌++◌, ℕ, List, filter, map, not};
ghost use Rattle.dw_slice.specs.declared.slices.Entry.{Entry};
ghost use Rattle.dw_slice.specs.declared.slices.Fresh.{Fresh};
ghost use Rattle.dw_slice.specs.Slices.{appended, fresh_seen, goes, marked, seen};

/// A snapshot before the stamp of a commit sees what it saw without it; one at the stamp or later sees no row that goes
/// with the commit, all others that it saw, and all fresh rows after them.
pub fn snapshots_see_whole_commits()
    ensures before { (snapshot stamp : ℕ) (gone : List ℕ) (fresh : List Fresh) (entries : List Entry) →
        snapshot < stamp → seen snapshot (appended stamp fresh (marked stamp gone entries)) ≡ seen snapshot entries }
    ensures after { (snapshot stamp : ℕ) (gone : List ℕ) (fresh : List Fresh) (entries : List Entry) →
        stamp ≤ snapshot → seen snapshot (appended stamp fresh (marked stamp gone entries))
        ≡ seen snapshot (filter (λ entry. not (goes gone entry)) entries) ++ map fresh_seen fresh }
{}
