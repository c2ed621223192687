// Numbers written two digits at a time, where there is room for the longest of their kind: each call hands back the position after what it wrote.
// A number below 100 is two bytes of a table, which the caller makes once and lends; a longer one is cut in halves of 2, 4 and 8 digits.
ghost use Rattle.std.specs.Prelude.{◌+◌, ◌≤◌, ◌<◌, length};
ghost use Rattle.text.specs.Decimals.{decimal, signed_decimal};
ghost use Rattle.writes.specs.Writes.{Writes};
ghost use Rattle.text.specs.LastDigits.{last_digits};
ghost use Rattle.text.specs.twos.Twos.{TwosAre};

use crate::digits::write_decimal;
use writes::write_byte;

// "00" to "99".
#[derive(Clone, Copy)]
pub struct Twos {
    pub digits: [u8; 200],
    pub ghost digits_are: { TwosAre 100 digits },
}

impl Twos {
    pub fn new() -> Twos {
        let mut digits = [0u8; 200];
        for k in 0..100 {
            digits[2 * k] = (48 + k / 10) as u8;
            digits[2 * k + 1] = (48 + k % 10) as u8;
        }
        Twos { digits }
    }
}

// Both bytes are read before one is written, so that the compiler makes one load and one store of them.
fn write_two(twos: &Twos, out: &mut [u8], at: usize, n: u32) -> usize
    requires n_bound { n < 100 }
    requires at_in_bounds { at + 2 ≤ length out.old }
    ensures { Writes 2 out.old at (last_digits 2 n) result out.new }
{
    let k = 2 * (n as usize);
    let ten = twos.digits[k];
    let one = twos.digits[k + 1];
    let middle = write_byte(out, at, ten);
    write_byte(out, middle, one)
}

fn write_four(twos: &Twos, out: &mut [u8], at: usize, n: u32) -> usize
    requires n_bound { n < 10000 }
    requires at_in_bounds { at + 4 ≤ length out.old }
    ensures { Writes 4 out.old at (last_digits 4 n) result out.new }
{
    let middle = write_two(twos, out, at, n / 100);
    write_two(twos, out, middle, n % 100)
}

fn write_eight(twos: &Twos, out: &mut [u8], at: usize, n: u32) -> usize
    requires n_bound { n < 100000000 }
    requires at_in_bounds { at + 8 ≤ length out.old }
    ensures { Writes 8 out.old at (last_digits 8 n) result out.new }
{
    let middle = write_four(twos, out, at, n / 10_000);
    write_four(twos, out, middle, n % 10_000)
}

// No leading zeros from here on.
fn write_to_two(twos: &Twos, out: &mut [u8], at: usize, n: u32) -> usize
    requires n_bound { n < 100 }
    requires at_in_bounds { at + 2 ≤ length out.old }
    ensures { Writes 2 out.old at (decimal n) result out.new }
{
    if n < 10 {
        return write_byte(out, at, (48 + n) as u8);
    }
    write_two(twos, out, at, n)
}

fn write_to_four(twos: &Twos, out: &mut [u8], at: usize, n: u32) -> usize
    requires n_bound { n < 10000 }
    requires at_in_bounds { at + 4 ≤ length out.old }
    ensures { Writes 4 out.old at (decimal n) result out.new }
{
    if n < 100 {
        return write_to_two(twos, out, at, n);
    }
    let middle = write_to_two(twos, out, at, n / 100);
    write_two(twos, out, middle, n % 100)
}

pub fn write_to_eight(twos: &Twos, out: &mut [u8], at: usize, n: u32) -> usize
    requires n_bound { n < 100000000 }
    requires at_in_bounds { at + 8 ≤ length out.old }
    ensures { Writes 8 out.old at (decimal n) result out.new }
{
    if n < 10_000 {
        return write_to_four(twos, out, at, n);
    }
    let middle = write_to_four(twos, out, at, n / 10_000);
    write_four(twos, out, middle, n % 10_000)
}

// No number of a line has more than 16 digits; another is written digit by digit.
fn write_long(twos: &Twos, out: &mut [u8], at: usize, n: u64) -> usize
    requires le_n { 100000000 ≤ n }
    requires at_in_bounds { at + 20 ≤ length out.old }
    ensures { Writes 20 out.old at (decimal n) result out.new }
{
    let high = n / 100_000_000;
    if high < 100_000_000 {
        let middle = write_to_eight(twos, out, at, high as u32);
        return write_eight(twos, out, middle, (n % 100_000_000) as u32);
    }
    write_decimal(out, at, n)
}

pub fn write_decimal_by(twos: &Twos, out: &mut [u8], at: usize, n: u64) -> usize
    requires at_in_bounds { at + 20 ≤ length out.old }
    ensures { Writes 20 out.old at (decimal n) result out.new }
{
    if n < 100_000_000 {
        return write_to_eight(twos, out, at, n as u32);
    }
    write_long(twos, out, at, n)
}

pub fn write_signed_by(twos: &Twos, out: &mut [u8], at: usize, z: i64) -> usize
    requires at_in_bounds { at + 21 ≤ length out.old }
    ensures { Writes 20 out.old at (signed_decimal z) result out.new }
{
    let n = z.unsigned_abs();
    if z < 0 {
        let digits = write_byte(out, at, b'-');
        return write_decimal_by(twos, out, digits, n);
    }
    write_decimal_by(twos, out, at, n)
}
