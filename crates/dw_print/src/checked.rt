//! The answer to a report that was judged right.
ghost use Rattle.std.specs.Prelude.{◌≡◌, IfOk};
ghost use Rattle.dw_print.specs.Checked.{checked_text};

use crate::fields::{write_number, write_text};
use crate::report::write_serial;
use dw_value::List;
use std::alloc::{AllocError, Global};

/// The answer to a report that was judged right: the line `legal E events C commits`, and the line of the stamps in
/// `serial`. The only error is want of memory. The form of the lines is this project's own.
pub fn checked_text(
    alloc: Global,
    events: u64,
    commits: u64,
    serial: &List<u64>,
) -> Result<List<u8>, AllocError>
    ensures { IfOk result (λ bytes. bytes ≡ checked_text events commits serial.now) }
{
    let mut out = Vec::new(alloc);
    write_number(&mut out, "legal ", events)?;
    write_number(&mut out, " events ", commits)?;
    write_text(&mut out, " commits\n")?;
    write_serial(&mut out, serial.as_slice())?;
    Ok(List::from_vec(out))
}
