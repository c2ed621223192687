// A net's text, part by part, into a slice that has room for it: where a line is put, there is room for the closing text after it.
ghost use mathlib.Core.List.{flat_map};
ghost use Rattle.std.specs.Prelude.{◌+◌, ◌≤◌, ◌<◌};
ghost use Rattle.model.specs.Lists.{joined};
ghost use Rattle.model.specs.Numbers.{limit};
ghost use Rattle.sheets.specs.Decoded.{net_of};
ghost use Rattle.opened.specs.Starts.{StartsAre, ModeArcs, OwnArc};
ghost use Rattle.sheets.specs.written.Written.{of_mode};
ghost use Rattle.sheets.specs.written.Puts.{Room, Puts};
ghost use Rattle.pnml.specs.Pnml.{arc_text, mode_text, pnml};
ghost use Rattle.export.specs.elements.Sides.{side_weight};
ghost use Rattle.export.specs.texts.Parts.{place_of, side_text, arc_no_text, RoomFor};

use crate::elements::{Side, put_line, put_place, put_transition};
use model::{Arc, Mode, Pair};
use opened::arcs::arc;
use opened::open::OpenNet;
use opened::shape::start_count;
use opened::starts::{Segment, arcs_of};
use pnml::{CLOSING, OPENING};
use text::twos::Twos;
use writes::write_bytes;

fn put_places(net: &OpenNet, twos: &Twos, out: &mut [u8], at: usize) -> usize
    requires room_for { RoomFor out.old at (joined net.now.shape.pairs (place_of (net_of net.now.sheet.now))) }
    ensures { Puts out.old at (joined net.now.shape.pairs (place_of (net_of net.now.sheet.now))) out.new result }
{
    let mut next = at;
    for p in 0..net.shape.pairs {
        let pair = Pair(p as u16);
        next = put_place(twos, out, next, pair, start_count(net, pair));
    }
    next
}

// "A weight must be positive": where Pre or Post is 0 there is no such arc.
#[inline(always)]
fn put_side(twos: &Twos, out: &mut [u8], at: usize, side: Side, a: Arc) -> usize
    requires mode_bound { (a.mode.0 < 256) × (a.pair.0 < 256) × (side_weight side a ≤ limit) }
    requires room_for { RoomFor out.old at (side_text side a) }
    ensures { Puts out.old at (side_text side a) out.new result }
{
    if side.weight(a) == 0 {
        return at;
    }
    put_line(twos, out, at, side, a)
}

// The i-th arc of a mode: Pre before Post.
fn put_arc(net: &OpenNet, arcs: Segment, i: usize, twos: &Twos, out: &mut [u8], at: usize) -> usize
    requires own_arc { OwnArc (net_of net.now.sheet.now).arcs arcs i }
    requires room_for { RoomFor out.old at (arc_no_text (net_of net.now.sheet.now) (arcs.start + i)) }
    ensures { Puts out.old at (arc_no_text (net_of net.now.sheet.now) (arcs.start + i)) out.new result }
{
    let a = arc(net, arcs, i);
    let next = put_side(twos, out, at, Side::Pre, a);
    put_side(twos, out, next, Side::Post, a)
}

fn put_arcs(net: &OpenNet, arcs: Segment, twos: &Twos, out: &mut [u8], at: usize) -> usize
    requires mode_arcs { ModeArcs (net_of net.now.sheet.now).arcs arcs.mode arcs.start arcs.count }
    requires room_for { RoomFor out.old at (flat_map arc_text (of_mode (net_of net.now.sheet.now).arcs arcs.mode.0)) }
    ensures { Puts out.old at (flat_map arc_text (of_mode (net_of net.now.sheet.now).arcs arcs.mode.0)) out.new result }
{
    let mut next = at;
    for i in 0..arcs.count {
        next = put_arc(net, arcs, i, twos, out, next);
    }
    next
}

// A transition, followed at once by its arcs.
fn put_mode(net: &OpenNet, arcs: Segment, twos: &Twos, out: &mut [u8], at: usize) -> usize
    requires mode_bound { arcs.mode.0 < 256 }
    requires mode_arcs { ModeArcs (net_of net.now.sheet.now).arcs arcs.mode arcs.start arcs.count }
    requires room_for { RoomFor out.old at (mode_text (net_of net.now.sheet.now).arcs arcs.mode.0) }
    ensures { Puts out.old at (mode_text (net_of net.now.sheet.now).arcs arcs.mode.0) out.new result }
{
    let next = put_transition(out, at, arcs.mode);
    put_arcs(net, arcs, twos, out, next)
}

fn put_modes(net: &OpenNet, starts: &[u16; 257], twos: &Twos, out: &mut [u8], at: usize) -> usize
    requires starts_are { StartsAre (net_of net.now.sheet.now).arcs starts.now }
    requires room_for { RoomFor out.old at (joined net.now.shape.modes (mode_text (net_of net.now.sheet.now).arcs)) }
    ensures { Puts out.old at (joined net.now.shape.modes (mode_text (net_of net.now.sheet.now).arcs)) out.new result }
{
    let mut next = at;
    for t in 0..net.shape.modes {
        let arcs = arcs_of(net, starts, Mode(t as u16));
        next = put_mode(net, arcs, twos, out, next);
    }
    next
}

pub(crate) fn put_text(net: &OpenNet, starts: &[u16; 257], out: &mut [u8]) -> usize
    requires starts_are { StartsAre (net_of net.now.sheet.now).arcs starts.now }
    requires room { Room out.old 0 (pnml (net_of net.now.sheet.now)) }
    ensures { Puts out.old 0 (pnml (net_of net.now.sheet.now)) out.new result }
{
    let twos = Twos::new();
    let at_places = write_bytes(out, 0, &OPENING);
    let at_modes = put_places(net, &twos, out, at_places);
    let end = put_modes(net, starts, &twos, out, at_modes);
    write_bytes(out, end, &CLOSING)
}
