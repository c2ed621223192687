// The places of the complement, and the modes of its transitions, which are the net's.
ghost use Rattle.std.specs.Prelude.{◌≡◌, ◌≤◌, length};
ghost use mathlib.Core.List.{flat_map};
ghost use Rattle.model.specs.Nets.{pairs};
ghost use Rattle.second_form.specs.Complement.{complement};
ghost use Rattle.model.specs.Lists.{joined};
ghost use Rattle.sheets.specs.Decoded.{net_of};
ghost use Rattle.sheets.specs.written.Written.{bytes16};
ghost use Rattle.halves.specs.declared.half.Half.TheVariants.{Complement};
ghost use Rattle.complement.specs.sections.Places.{colours_in, place_if, half_place, place_bytes};
ghost use Rattle.sheets.specs.written.Puts.{Room, Puts};

use crate::sections::bounded::{Bounded, bounded_between};
use halves::half::Half;
use opened::open::OpenNet;
use opened::shape::{colours_of, modes_of};
use sheets::written::put_count;

// How many colours a place of these pairs has, or has of finite K.
fn half_colours(bounded: &Bounded, half: Half, first: usize, end: usize) -> usize
    requires first_le_end { (first ≤ end) × (end ≤ bounded.now.net.now.shape.pairs) }
    ensures { (result ≡ colours_in (net_of bounded.now.net.now.sheet.now) half first end) × (result ≤ 256) }
{
    match half {
        Half::Original => end - first,
        Half::Complement => bounded_between(bounded, first, end),
    }
}

fn count_place(colours: usize) -> usize
    ensures { (result ≡ length (place_if colours)) × (result ≤ 1) }
{
    usize::from(colours != 0)
}

fn put_place(colours: usize, out: &mut [u8], at: usize) -> usize
    requires colours_bound { colours ≤ 256 }
    requires room { Room out.old at (flat_map bytes16 (place_if colours)) }
    ensures { Puts out.old at (flat_map bytes16 (place_if colours)) out.new result }
{
    if colours == 0 {
        return at;
    }
    put_count(out, at, colours)
}

// "one for each place with a finite pair"
pub(crate) fn count_new_places(bounded: &Bounded) -> usize
    ensures { (result ≡ length (joined bounded.now.net.now.shape.places (half_place (net_of bounded.now.net.now.sheet.now) Complement))) × (result ≤ 64) }
{
    let mut count = 0;
    let mut first = 0;
    for place in 0..bounded.net.shape.places {
        let end = first + colours_of(bounded.net, place);
        count += count_place(half_colours(bounded, Half::Complement, first, end));
        first = end;
    }
    count
}

fn put_half_places(bounded: &Bounded, half: Half, out: &mut [u8], at: usize) -> usize
    requires room { Room out.old at (joined bounded.now.net.now.shape.places (place_bytes (net_of bounded.now.net.now.sheet.now) half)) }
    ensures { Puts out.old at (joined bounded.now.net.now.shape.places (place_bytes (net_of bounded.now.net.now.sheet.now) half)) out.new result }
{
    let mut next = at;
    let mut first = 0;
    for place in 0..bounded.net.shape.places {
        let end = first + colours_of(bounded.net, place);
        next = put_place(half_colours(bounded, half, first, end), out, next);
        first = end;
    }
    next
}

// "The new places follow the old".
pub(crate) fn put_places(bounded: &Bounded, out: &mut [u8], at: usize) -> usize
    requires room { Room out.old at (flat_map bytes16 (complement (net_of bounded.now.net.now.sheet.now)).colours) }
    ensures { Puts out.old at (flat_map bytes16 (complement (net_of bounded.now.net.now.sheet.now)).colours) out.new result }
{
    let next = put_half_places(bounded, Half::Original, out, at);
    put_half_places(bounded, Half::Complement, out, next)
}

// "Modes are unchanged."
pub(crate) fn put_modes(net: &OpenNet, out: &mut [u8], at: usize) -> usize
    requires room { Room out.old at (flat_map bytes16 (complement (net_of net.now.sheet.now)).modes_of) }
    ensures { Puts out.old at (flat_map bytes16 (complement (net_of net.now.sheet.now)).modes_of) out.new result }
{
    let mut next = at;
    for transition in 0..net.shape.transitions {
        next = put_count(out, next, modes_of(net, transition));
    }
    next
}
