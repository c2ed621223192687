// The lines of a net's text in PNML (document 02, P5), each put word by word into a slice that has room for the longest of its kind with a number of eight digits;
// the position after it is handed back.
pub mod sizes;

ghost use Rattle.std.specs.Prelude.{◌≡◌, ◌++◌, ◌+◌, ◌≤◌, ◌<◌, length};
ghost use Rattle.model.specs.Numbers.{limit};
ghost use Rattle.text.specs.Ascii.{ascii};
ghost use Rattle.writes.specs.Writes.{Writes};
ghost use Rattle.pnml.specs.Pnml.{three, place_text, transition_text, weight_text};
ghost use Rattle.export.specs.elements.Sides.{side_weight, line_text};

use model::{Arc, Mode, Pair};
use pnml::{
    AND_PAIR, ARC_END, FIRST_MARKING, FROM_PLACE, FROM_TRANSITION, PLACE, PLACE_END, POST, PRE,
    TO_PLACE, TO_TRANSITION, TRANSITION, TRANSITION_END, WEIGHT,
};
use text::twos::{Twos, write_to_eight};
use writes::{write_byte, write_bytes};

// Which of an arc's two weights a line has.
#[derive(Clone, Copy)]
pub(crate) enum Side {
    Pre,
    Post,
}

impl Side {
    pub(crate) fn weight(self, a: Arc) -> u32
        ensures { result ≡ side_weight self a }
    {
        match self {
            Side::Pre => a.pre,
            Side::Post => a.post,
        }
    }
}

// "identifiers have three digits"
fn write_three(out: &mut [u8], at: usize, n: u16) -> usize
    requires { (n < 1000) × (at + 3 ≤ length out.old) }
    ensures { Writes 3 out.old at (three n) result out.new }
{
    let ten = write_byte(out, at, (48 + n / 100) as u8);
    let one = write_byte(out, ten, (48 + n / 10 % 10) as u8);
    write_byte(out, one, (48 + n % 10) as u8)
}

pub(crate) fn put_place(twos: &Twos, out: &mut [u8], at: usize, pair: Pair, count: u32) -> usize
    requires pair_bound { (pair.0 < 256) × (count ≤ limit) }
    requires at_in_bounds { at + 86 ≤ length out.old }
    ensures { Writes 86 out.old at (place_text pair.0 count) result out.new }
{
    let id = write_bytes(out, at, &PLACE);
    let marking = write_three(out, id, pair.0);
    let number = write_bytes(out, marking, &FIRST_MARKING);
    let end = write_to_eight(twos, out, number, count);
    write_bytes(out, end, &PLACE_END)
}

pub(crate) fn put_transition(out: &mut [u8], at: usize, mode: Mode) -> usize
    requires mode_bound { mode.0 < 256 }
    requires at_in_bounds { at + 30 ≤ length out.old }
    ensures { Writes 30 out.old at (transition_text mode.0) result out.new }
{
    let id = write_bytes(out, at, &TRANSITION);
    let end = write_three(out, id, mode.0);
    write_bytes(out, end, &TRANSITION_END)
}

// An arc is named by its mode and its pair.
fn put_name(out: &mut [u8], at: usize, mode: Mode, pair: Pair) -> usize
    requires mode_bound { (mode.0 < 256) × (pair.0 < 256) }
    requires at_in_bounds { at + 7 ≤ length out.old }
    ensures { Writes 7 out.old at (three mode.0 ++ (ascii "-" ++ three pair.0)) result out.new }
{
    let and = write_three(out, at, mode.0);
    let next = write_bytes(out, and, &AND_PAIR);
    write_three(out, next, pair.0)
}

// Where an arc goes from or to: the words, then the place or the transition.
fn put_end(out: &mut [u8], at: usize, words: &[u8; 11], n: u16) -> usize
    requires { (n < 1000) × (at + 14 ≤ length out.old) }
    ensures { Writes 14 out.old at (words.now ++ three n) result out.new }
{
    let id = write_bytes(out, at, words);
    write_three(out, id, n)
}

// From the end of the arc's attributes on.
fn put_weight(twos: &Twos, out: &mut [u8], at: usize, weight: u32) -> usize
    requires weight_le_limit { weight ≤ limit }
    requires at_in_bounds { at + 57 ≤ length out.old }
    ensures { Writes 57 out.old at (weight_text weight) result out.new }
{
    let number = write_bytes(out, at, &WEIGHT);
    let end = write_to_eight(twos, out, number, weight);
    write_bytes(out, end, &ARC_END)
}

// Pre, from the place to the transition, or Post, from the transition to the place: the arc's name, where it goes from and to, and its weight.
// Inlined, so that each side's words are constants where they are copied (docs/SPEED.md).
#[inline(always)]
pub(crate) fn put_line(twos: &Twos, out: &mut [u8], at: usize, side: Side, a: Arc) -> usize
    requires mode_bound { (a.mode.0 < 256) × (a.pair.0 < 256) × (side_weight side a ≤ limit) }
    requires at_in_bounds { at + 108 ≤ length out.old }
    ensures { Writes 108 out.old at (line_text side a.mode.0 a.pair.0 (side_weight side a)) result out.new }
{
    let (name, from, first, to, second) = match side {
        Side::Pre => (&PRE, &FROM_PLACE, a.pair.0, &TO_TRANSITION, a.mode.0),
        Side::Post => (&POST, &FROM_TRANSITION, a.mode.0, &TO_PLACE, a.pair.0),
    };
    let id = write_bytes(out, at, name);
    let source = put_name(out, id, a.mode, a.pair);
    let target = put_end(out, source, from, first);
    let end = put_end(out, target, to, second);
    put_weight(twos, out, end, side.weight(a))
}
