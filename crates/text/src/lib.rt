// Runs of bytes and numbers in decimal, put into a slice that the caller lends: the parts of a line of `replay` (document 01, "`replay`").
#![tactic(auto)]

pub mod digits;
pub mod twos;

ghost use Rattle.std.specs.Prelude.{◌≡◌, ◌∷◌};
ghost use Rattle.writes.specs.Writes.{put_into};
ghost use Rattle.text.specs.Decimals.{decimal, minus};
ghost use Rattle.text.specs.Puts.{end_within, put_to};
ghost use Rattle.text.specs.Allowed.{PutBytesAllows, PutDecimalAllows, PutSignedAllows};

use crate::digits::{digit_count, write_digits};
use writes::write_bytes;

// The position after `count` bytes from `at`, where they lie within `len`: no sum wraps.
fn end_within(len: usize, at: usize, count: usize) -> Option<usize>
    ensures { result ≡ end_within len at count }
{
    at.checked_add(count).filter(|end| *end <= len)
}

// All of the bytes or none.
pub fn put_bytes(out: &mut [u8], at: usize, bytes: &[u8]) -> Option<usize>
    ensures { PutBytesAllows out.old at bytes.now (result, out.new) }
{
    end_within(out.len(), at, bytes.len())?;
    Some(write_bytes(out, at, bytes))
}

// No leading zeros; zero is `0`.
pub fn put_decimal(out: &mut [u8], at: usize, n: u64) -> Option<usize>
    ensures { PutDecimalAllows out.old at n (result, out.new) }
{
    let count = digit_count(n);
    let end = end_within(out.len(), at, count)?;
    write_digits(out, at, count, n);
    Some(end)
}

// '-' and the digits of n.
fn put_negative(out: &mut [u8], at: usize, n: u64) -> Option<usize>
    ensures value { result ≡ put_to out.old at (minus ∷ decimal n) }
    ensures out_after { out.new ≡ put_into out.old at (minus ∷ decimal n) }
{
    let count = digit_count(n);
    let end = end_within(out.len(), at, count + 1)?;
    out[at] = b'-';
    write_digits(out, at + 1, count, n);
    Some(end)
}

// A figure may be negative (document 01, "Sheets": "A weight may be negative"): then '-' and the digits of its size.
pub fn put_signed(out: &mut [u8], at: usize, z: i64) -> Option<usize>
    ensures { PutSignedAllows out.old at z (result, out.new) }
{
    if z < 0 {
        put_negative(out, at, z.unsigned_abs())
    } else {
        put_decimal(out, at, z.unsigned_abs())
    }
}
