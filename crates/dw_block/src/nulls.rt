//! The null bits of a block.
ghost use Rattle.std.specs.Prelude.{◌≡◌, ◌≤◌, ◌<◌, ◌/◌, length, IfOk};
ghost use Rattle.dw_block.specs.Nulls.{null_number, null_len, null_bits, bit_at};

use dw_value::Value;
use std::alloc::{AllocError, Global};

/// How many bytes hold the bits of so many values.
pub fn null_len(count: usize) -> usize
    requires { count ≤ 4096 }
    ensures value { result ≡ null_len count }
    ensures few { result ≤ 512 }
{
    (count + 7) / 8
}

/// The bits of at most eight values, the first one's least.
fn null_byte(values: &[Value]) -> u8
    requires { length values.now ≤ 8 }
    ensures { result ≡ null_number values.now }
{
    let mut byte = 0_u32;
    let mut weight = 1_u32;
    for value in values {
        if value.is_null() {
            byte += weight;
        }
        weight *= 2;
    }
    byte as u8
}

/// The null bits of the values.
pub fn null_bits(alloc: Global, values: &[Value]) -> Result<Vec<u8>, AllocError>
    requires { length values.now ≤ 4096 }
    ensures { IfOk result (λ bytes. bytes.items ≡ null_bits values.now) }
{
    let len = null_len(values.len());
    let mut bytes = Vec::with_capacity(alloc, len)?;
    let mut rest = values;
    for _ in 0..len {
        let (front, back) = rest.split_at(rest.len().min(8));
        bytes.push(null_byte(front))?;
        rest = back;
    }
    Ok(bytes)
}

/// Whether the bit at a place is set.
pub fn bit_at(bytes: &[u8], place: usize) -> bool
    requires { place / 8 < length bytes.now }
    ensures { result ≡ bit_at bytes.now place }
{
    (bytes[place / 8] >> (place % 8)) % 2 == 1
}
