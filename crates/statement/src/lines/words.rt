// A number as a word after another.
ghost use Rattle.std.specs.Prelude.{[], ◌∷◌, ◌++◌, ◌+◌, ◌≤◌, length};
ghost use Rattle.text.specs.Decimals.{decimal, signed_decimal};
ghost use Rattle.writes.specs.Writes.{Writes};
ghost use Rattle.text.specs.Ascii.{space, newline};

use text::digits::{write_decimal, write_signed};
use writes::write_byte;

pub(crate) fn next_decimal(out: &mut [u8], at: usize, n: u64) -> usize
    requires { at + 21 ≤ length out.old }
    ensures { Writes 21 out.old at (space ∷ decimal n) result out.new }
{
    let word = write_byte(out, at, b' ');
    write_decimal(out, word, n)
}

pub(crate) fn last_decimal(out: &mut [u8], at: usize, n: u64) -> usize
    requires { at + 22 ≤ length out.old }
    ensures { Writes 22 out.old at (space ∷ decimal n ++ newline ∷ []) result out.new }
{
    let end = next_decimal(out, at, n);
    write_byte(out, end, b'\n')
}

// A figure as the last word of a line.
pub(crate) fn last_figure(out: &mut [u8], at: usize, figure: i64) -> usize
    requires { at + 22 ≤ length out.old }
    ensures { Writes 22 out.old at (space ∷ signed_decimal figure ++ newline ∷ []) result out.new }
{
    let word = write_byte(out, at, b' ');
    let end = write_signed(out, word, figure);
    write_byte(out, end, b'\n')
}
