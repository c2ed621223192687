// One number for each arc of a net, made once for a run by the net's rule: a count passes all four tests when it is at least Pre and below that number.
// And firing a mode of a list in one pass over its arcs.
#![tactic(auto)]

pub mod trying;

ghost use Rattle.std.specs.Prelude.{◌≡◌, true, ◌↔◌, ◌+◌, ◌≤◌, length};
ghost use Rattle.model.specs.Numbers.{limit};
ghost use Rattle.model.specs.Firing.{room_at};
ghost use Rattle.model.specs.PassBelow.{pass_below};
ghost use Rattle.fields.specs.Numbers.{bound};
ghost use Rattle.sheets.specs.Decoded.{net_of, net_arc};
ghost use Rattle.opened.specs.Shape.{ArcIs};
ghost use Rattle.opened.specs.Starts.{StartsAre, ModeArcs, OwnArc};
ghost use Rattle.rule.specs.AtPair.{Unstopped};
ghost use Rattle.fire.specs.firing.AtMode.{Writable, AtMode, OfMode};
ghost use Rattle.numbers.specs.Numbers.{number_of, NumbersBelow, NumbersAre, Numbered};
ghost use Rattle.onepass.specs.OnePass.{Passes, Through, Fires};

use fire::firing::arcs::room_at;
use fire::firing::pair::is_free;
use model::{Arc, Mode};
use onepass::take_back;
use opened::arcs::{arc, slot};
use opened::open::OpenNet;
use opened::starts::{Segment, arcs_of};
use rule::AtPair;

// The counts below this number, from Pre on, are those that pass all four tests.
fn pass_below(arc: Arc, capacity: u32) -> u32
    requires { (arc.pre ≤ limit) × (arc.post ≤ limit) }
    ensures { result ≡ pass_below (net_arc arc).entry (bound capacity) }
{
    if capacity < arc.post {
        return 0;
    }
    let kept = arc.inhibitor.min(1_000_000 + arc.pre - arc.post);
    (capacity - arc.post).min(kept) + 1
}

fn arc_number(net: &OpenNet, arcs: Segment, i: usize) -> u32
    requires own_arc { OwnArc (net_of net.now.sheet.now).arcs arcs i }
    ensures { result ≡ number_of (net_of net.now.sheet.now) (arcs.start + i) }
{
    let arc = arc(net, arcs, i);
    pass_below(arc, room_at(net, arc))
}

// The numbers of a mode's arcs, where those of the modes below it are written.
fn write_mode(net: &OpenNet, arcs: Segment, numbers: &mut [u32])
    requires mode_arcs { ModeArcs (net_of net.now.sheet.now).arcs arcs.mode arcs.start arcs.count }
    requires numbers_below { NumbersBelow (net_of net.now.sheet.now) numbers.old arcs.mode.0 }
    ensures { NumbersBelow (net_of net.now.sheet.now) numbers.new (arcs.mode.0 + 1) }
{
    for i in 0..arcs.count {
        numbers[slot(net, arcs, i)] = arc_number(net, arcs, i);
    }
}

// Written into a table that is lent, so that it stands on the stack once.
pub fn write_numbers(net: &OpenNet, starts: &[u16; 257], numbers: &mut [u32])
    requires starts_are { StartsAre (net_of net.now.sheet.now).arcs starts.now }
    requires numbers_len { length numbers.old ≡ 2048 }
    ensures { NumbersAre (net_of net.now.sheet.now) numbers.new }
{
    for t in 0..net.shape.modes {
        write_mode(net, arcs_of(net, starts, Mode(t as u16)), numbers);
    }
}

// Whether an arc lets its mode pass at a count: by its number, or by all four tests where the table is empty, since only a run may hold it on the stack.
fn lets_pass(net: &OpenNet, numbers: &[u32], arcs: Segment, i: usize, arc: Arc, count: u32) -> bool
    requires numbered { Numbered net.now.sheet.now net.now.shape numbers.now }
    requires own_arc { OwnArc (net_of net.now.sheet.now).arcs arcs i }
    requires arc_is { ArcIs net.now.sheet.now net.now.shape (arcs.start + i) arc }
    requires count_le_limit { count ≤ limit }
    ensures { (result ≡ true) ↔ Unstopped (net_arc arc).entry (room_at (net_of net.now.sheet.now) (net_arc arc)) count }
{
    if numbers.is_empty() {
        return is_free(AtPair {
            arc,
            capacity: room_at(net, arc),
            count,
        });
    }
    arc.pre <= count && count < numbers[slot(net, arcs, i)]
}

// Tests an arc and, where it lets its mode pass, writes its pair at once.
fn fire_arc(net: &OpenNet, numbers: &[u32], arcs: Segment, i: usize, marking: &mut [u32]) -> bool
    requires numbered { Numbered net.now.sheet.now net.now.shape numbers.now }
    requires own_arc { OwnArc (net_of net.now.sheet.now).arcs arcs i }
    requires writable { Writable (net_of net.now.sheet.now) marking.old (arcs.start + i) }
    ensures { Passes result (net_of net.now.sheet.now) marking.old (arcs.start + i) marking.new }
{
    let arc = arc(net, arcs, i);
    let p = arc.pair.0 as usize;
    let count = marking[p];
    if !lets_pass(net, numbers, arcs, i, arc, count) {
        return false;
    }
    marking[p] = count - arc.pre + arc.post;
    true
}

// One pass over the arcs of a mode, up to the first that does not let it pass: how many have written.
fn fire_through(net: &OpenNet, numbers: &[u32], arcs: Segment, marking: &mut [u32]) -> usize
    requires numbered { Numbered net.now.sheet.now net.now.shape numbers.now }
    requires at_mode { AtMode net.now.sheet.now net.now.shape arcs marking.old }
    ensures { Through (net_of net.now.sheet.now) arcs result marking.old marking.new }
{
    // A copy, which no store through `marking` can change: the loop then reads its numbers once (docs/SPEED.md).
    let net = *net;
    for i in 0..arcs.count {
        if !fire_arc(&net, numbers, arcs, i, marking) {
            return i;
        }
    }
    arcs.count
}

// One pass tests and writes; where an arc does not let the mode pass, those before it are taken back. Whether the mode has fired.
// "Test first, then write" is said of firing one mode: a list stops at its first refused movement, so that at most one is ever taken back.
pub(crate) fn fire_within(
    net: &OpenNet,
    numbers: &[u32],
    arcs: Segment,
    marking: &mut [u32],
) -> bool
    requires numbered { Numbered net.now.sheet.now net.now.shape numbers.now }
    requires at_mode { AtMode net.now.sheet.now net.now.shape arcs marking.old }
    ensures { OfMode net.now.sheet.now arcs (λ t. Fires result (net_of net.now.sheet.now) marking.old t marking.new) }
{
    let written = fire_through(net, numbers, arcs, marking);
    if written < arcs.count {
        take_back(net, arcs, written, marking);
        return false;
    }
    true
}
