//! Where a session stands among all.
ghost use Rattle.std.specs.Prelude.{◌≡◌, ◌-◌, ◌≤◌};

/// The place, from 0, of a session among those that have a script, which are numbered from 1.
pub fn place_of(session: u32) -> usize
    requires { 1 ≤ session }
    ensures { result ≡ session - 1 }
{
    session as usize - 1
}
