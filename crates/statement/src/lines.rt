// The lines of `replay`'s output (document 01, "`replay`"), each put word by word into a slice that has room for the longest of its kind; the position after it
// is handed back.
mod words;

ghost use Rattle.std.specs.Prelude.{◌+◌, ◌≤◌, length};
ghost use Rattle.writes.specs.Writes.{Writes};
ghost use Rattle.statement.specs.lines.Lines.{start_line, accepted_line, refused_line, end_line, bad_line, long_line};

use crate::lines::words::{last_decimal, last_figure, next_decimal};
use crate::told::{line_of, thing_of};
use model::{Mode, Refusal};
use text::twos::{Twos, write_decimal_by, write_signed_by, write_to_eight};
use writes::{write_byte, write_bytes};

pub(crate) fn put_start(out: &mut [u8], at: usize, figure: i64) -> usize
    requires { at + 27 ≤ length out.old }
    ensures { Writes 27 out.old at (start_line figure) result out.new }
{
    let word = write_bytes(out, at, b"start");
    last_figure(out, word, figure)
}

// A text has thousands of these lines: their numbers are written by a table, made once for the text. The answer is always 0.
pub(crate) fn put_accepted(
    twos: &Twos,
    out: &mut [u8],
    at: usize,
    place: u64,
    mode: Mode,
    figure: i64,
) -> usize
    requires at_in_bounds { at + 84 ≤ length out.old }
    ensures { Writes 84 out.old at (accepted_line place mode figure) result out.new }
{
    let first = write_decimal_by(twos, out, at, place);
    let space = write_byte(out, first, b' ');
    let second = write_to_eight(twos, out, space, u32::from(mode.0));
    let answer = write_bytes(out, second, b" 0 ");
    let end = write_signed_by(twos, out, answer, figure);
    write_byte(out, end, b'\n')
}

pub(crate) fn put_refused(
    out: &mut [u8],
    at: usize,
    place: u64,
    mode: Mode,
    refusal: Refusal,
) -> usize
    requires { at + 113 ≤ length out.old }
    ensures { Writes 113 out.old at (refused_line place mode refusal) result out.new }
{
    let line = line_of(refusal.fault);
    let word = write_bytes(out, at, b"refused");
    let first = next_decimal(out, word, place);
    let second = next_decimal(out, first, u64::from(mode.0));
    let third = next_decimal(out, second, line.number);
    let fourth = next_decimal(out, third, line.position);
    last_decimal(out, fourth, line.amount)
}

pub(crate) fn put_end(out: &mut [u8], at: usize, accepted: u64, figure: i64) -> usize
    requires { at + 46 ≤ length out.old }
    ensures { Writes 46 out.old at (end_line accepted figure) result out.new }
{
    let word = write_bytes(out, at, b"end");
    let first = next_decimal(out, word, accepted);
    last_figure(out, first, figure)
}

pub(crate) fn put_bad(out: &mut [u8], at: usize, refusal: Refusal) -> usize
    requires { at + 67 ≤ length out.old }
    ensures { Writes 67 out.old at (bad_line refusal) result out.new }
{
    let line = line_of(refusal.fault);
    let word = write_bytes(out, at, b"bad");
    let first = next_decimal(out, word, thing_of(refusal));
    let second = next_decimal(out, first, line.number);
    last_decimal(out, second, line.position)
}

pub(crate) fn put_long(out: &mut [u8], at: usize) -> usize
    requires { at + 5 ≤ length out.old }
    ensures { Writes 5 out.old at long_line result out.new }
{
    write_bytes(out, at, b"long\n")
}
