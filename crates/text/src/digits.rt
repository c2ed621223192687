// Numbers in decimal: how many digits, each written once, from the last, into a slice that has room for them; of a signed number the digits of its size.
// A number of 64 bits has at most 20 digits, one with a sign at most 19.
ghost use Rattle.std.specs.Prelude.{◌≡◌, ◌+◌, ◌≤◌, length};
ghost use Rattle.writes.specs.Writes.{put_into, Writes};
ghost use Rattle.text.specs.Decimals.{decimal, signed_decimal};

use writes::write_byte;

// By powers of ten up to n / 10, so that none wraps: `power` is 10 ^ `after`. A `while`, since it stops at a power and not at a count.
pub fn digit_count(n: u64) -> usize
    ensures { result ≡ length (decimal n) }
{
    let tenth = n / 10;
    let mut power = 1;
    let mut after = 0;
    while power <= tenth {
        power *= 10;
        after += 1;
    }
    after + 1
}

pub(crate) fn write_digits(out: &mut [u8], at: usize, count: usize, n: u64)
    requires count_value { count ≡ length (decimal n) }
    requires count_in_bounds { at + count ≤ length out.old }
    ensures { out.new ≡ put_into out.old at (decimal n) }
{
    let mut rest = n;
    for left in (0..count).rev() {
        out[at + left] = (48 + rest % 10) as u8;
        rest /= 10;
    }
}

// Each hands back the position after what it wrote.
pub fn write_decimal(out: &mut [u8], at: usize, n: u64) -> usize
    requires { at + length (decimal n) ≤ length out.old }
    ensures { Writes 20 out.old at (decimal n) result out.new }
{
    let count = digit_count(n);
    write_digits(out, at, count, n);
    at + count
}

pub fn write_signed(out: &mut [u8], at: usize, z: i64) -> usize
    requires { at + length (signed_decimal z) ≤ length out.old }
    ensures { Writes 20 out.old at (signed_decimal z) result out.new }
{
    let n = z.unsigned_abs();
    if z < 0 {
        let digits = write_byte(out, at, b'-');
        return write_decimal(out, digits, n);
    }
    write_decimal(out, at, n)
}
