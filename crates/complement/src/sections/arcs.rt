// The arcs of the complement, put: mode by mode, the originals and then those on complement pairs, blanks left out.
ghost use Rattle.std.specs.Prelude.{◌≡◌, ◌+◌, ◌≤◌, length};
ghost use mathlib.Core.List.{◌++◌, flat_map};
ghost use Rattle.second_form.specs.Dead.{is_dead};
ghost use Rattle.model.specs.Lists.{joined};
ghost use Rattle.sheets.specs.Decoded.{net_of, net_arc};
ghost use Rattle.opened.specs.Starts.{StartsAre, ModeArcs, OwnArc};
ghost use Rattle.sheets.specs.written.Written.{bytes16, mode_bytes, arc_bytes};
ghost use Rattle.sheets.specs.written.Puts.{Put, Room, Puts, mode_size};
ghost use Rattle.halves.specs.declared.half.Half.TheVariants.{Original, Complement};
ghost use Rattle.complement.specs.sections.DeadModes.{DeadAre};
ghost use Rattle.complement.specs.sections.Arcs.{kept_bytes, half_arc, half_bytes, row_arcs, row_bytes};

use crate::sections::bounded::{Bounded, complement_pair};
use crate::sections::entry::{is_blank, original_arc};
use halves::entry::complement_arc;
use halves::half::Half;
use model::{Arc, Mode, Version};
use opened::arcs::arc;
use opened::open::OpenNet;
use opened::shape::capacity;
use opened::starts::{Segment, arcs_of};
use sheets::written::{mode_size, own_size, put_own, put16, put32};

// A half of what the i-th arc of a mode becomes, dead or not.
pub(crate) fn half_arc(bounded: &Bounded, dead: bool, half: Half, arcs: Segment, i: usize) -> Arc
    requires own_arc { OwnArc (net_of bounded.now.net.now.sheet.now).arcs arcs i }
    requires dead_value { dead ≡ is_dead (net_of bounded.now.net.now.sheet.now) arcs.mode }
    ensures { net_arc result ≡ half_arc (net_of bounded.now.net.now.sheet.now) half (arcs.start + i) }
{
    let a = arc(bounded.net, arcs, i);
    match half {
        Half::Original => original_arc(a),
        Half::Complement => complement_arc(
            a,
            bounded.net.shape.rule,
            dead,
            capacity(bounded.net, a.pair),
            complement_pair(bounded, a.pair),
        ),
    }
}

// The mode of an arc, where the version says it, and its pair. The mode is put in either version: in version 2 the pair takes its place,
// and no arc asks for the version (docs/SPEED.md).
fn put_names(out: &mut [u8], at: usize, version: Version, mode: u16, pair: u16) -> usize
    requires { at + (mode_size version + 2) ≤ length out.old }
    ensures { Put out.old at (mode_size version + 2) (mode_bytes version mode ++ bytes16 pair) out.new result }
{
    put16(out, at, mode);
    put16(out, at + mode_size(version), pair)
}

// What an arc leaves at its own pair. Each field is read just before it is put: its bytes are then stored as one number (docs/SPEED.md).
fn put_original(net: &OpenNet, arcs: Segment, i: usize, out: &mut [u8], at: usize) -> usize
    requires own_arc { OwnArc (net_of net.now.sheet.now).arcs arcs i }
    requires version_in_bounds { at + (mode_size net.now.shape.version + 14) ≤ length out.old }
    ensures { Put out.old at (mode_size net.now.shape.version + 14) (arc_bytes net.now.shape.version (half_arc (net_of net.now.sheet.now) Original (arcs.start + i))) out.new result }
{
    let names = arc(net, arcs, i);
    let to_pre = put_names(out, at, net.shape.version, names.mode.0, names.pair.0);
    let of_pre = arc(net, arcs, i);
    let to_post = put32(out, to_pre, of_pre.pre);
    let of_post = arc(net, arcs, i);
    let to_inhibitor = put32(out, to_post, of_post.post);
    put32(out, to_inhibitor, 0xffff_ffff)
}

// What it puts at the complement pair, already worked out. Pre first, then the rest, with a look into the sheet before Post and one into the
// table before the others: Pre and Post are then stored as one number each (docs/SPEED.md).
fn put_new(bounded: &Bounded, arcs: Segment, i: usize, new: Arc, out: &mut [u8], at: usize) -> usize
    requires own_arc { OwnArc (net_of bounded.now.net.now.sheet.now).arcs arcs i }
    requires value { net_arc new ≡ half_arc (net_of bounded.now.net.now.sheet.now) Complement (arcs.start + i) }
    requires version_in_bounds { at + (mode_size bounded.now.net.now.shape.version + 14) ≤ length out.old }
    ensures { Put out.old at (mode_size bounded.now.net.now.shape.version + 14) (arc_bytes bounded.now.net.now.shape.version (net_arc new)) out.new result }
{
    let to_post = put32(out, at + mode_size(bounded.net.shape.version) + 2, new.pre);
    let a = arc(bounded.net, arcs, i);
    let to_inhibitor = put32(out, to_post, new.post);
    let pair = complement_pair(bounded, a.pair);
    let end = put32(out, to_inhibitor, new.inhibitor);
    put_names(out, at, bounded.net.shape.version, new.mode.0, pair.0);
    end
}

// "Blank arcs are left out."
fn put_half_arc(
    bounded: &Bounded,
    dead: bool,
    half: Half,
    arcs: Segment,
    i: usize,
    out: &mut [u8],
    at: usize,
) -> usize
    requires own_arc { OwnArc (net_of bounded.now.net.now.sheet.now).arcs arcs i }
    requires dead_value { dead ≡ is_dead (net_of bounded.now.net.now.sheet.now) arcs.mode }
    requires room { Room out.old at (kept_bytes bounded.now.net.now.shape.version (half_arc (net_of bounded.now.net.now.sheet.now) half (arcs.start + i))) }
    ensures { Puts out.old at (kept_bytes bounded.now.net.now.shape.version (half_arc (net_of bounded.now.net.now.sheet.now) half (arcs.start + i))) out.new result }
{
    let found = half_arc(bounded, dead, half, arcs, i);
    if is_blank(found) {
        return at;
    }
    match half {
        Half::Original => put_original(bounded.net, arcs, i, out, at),
        Half::Complement => put_new(bounded, arcs, i, found, out, at),
    }
}

// A half of what the arcs of a mode become.
fn put_half_arcs(
    bounded: &Bounded,
    dead: bool,
    half: Half,
    arcs: Segment,
    out: &mut [u8],
    at: usize,
) -> usize
    requires mode_arcs { ModeArcs (net_of bounded.now.net.now.sheet.now).arcs arcs.mode arcs.start arcs.count }
    requires dead_value { dead ≡ is_dead (net_of bounded.now.net.now.sheet.now) arcs.mode }
    requires room { Room out.old at (joined arcs.count (half_bytes (net_of bounded.now.net.now.sheet.now) bounded.now.net.now.shape.version half arcs.start)) }
    ensures { Puts out.old at (joined arcs.count (half_bytes (net_of bounded.now.net.now.sheet.now) bounded.now.net.now.shape.version half arcs.start)) out.new result }
{
    let mut next = at;
    for i in 0..arcs.count {
        next = put_half_arc(bounded, dead, half, arcs, i, out, next);
    }
    next
}

// "arcs rise strictly by mode, then pair": a mode's arcs on complement pairs follow its originals. A loop over both, so that the
// inner one has one caller and is inlined (docs/SPEED.md).
fn put_halves(bounded: &Bounded, dead: bool, arcs: Segment, out: &mut [u8], at: usize) -> usize
    requires mode_arcs { ModeArcs (net_of bounded.now.net.now.sheet.now).arcs arcs.mode arcs.start arcs.count }
    requires dead_value { dead ≡ is_dead (net_of bounded.now.net.now.sheet.now) arcs.mode }
    requires room { Room out.old at (flat_map (arc_bytes bounded.now.net.now.shape.version) (row_arcs (net_of bounded.now.net.now.sheet.now) arcs.mode.0)) }
    ensures { Puts out.old at (flat_map (arc_bytes bounded.now.net.now.shape.version) (row_arcs (net_of bounded.now.net.now.sheet.now) arcs.mode.0)) out.new result }
{
    let mut next = at;
    for half in [Half::Original, Half::Complement] {
        next = put_half_arcs(bounded, dead, half, arcs, out, next);
    }
    next
}

// In version 2 a mode's arcs follow their count, which is known when they are put: they have 14 bytes each.
fn put_mode(bounded: &Bounded, dead: bool, arcs: Segment, out: &mut [u8], at: usize) -> usize
    requires mode_arcs { ModeArcs (net_of bounded.now.net.now.sheet.now).arcs arcs.mode arcs.start arcs.count }
    requires dead_value { dead ≡ is_dead (net_of bounded.now.net.now.sheet.now) arcs.mode }
    requires room { Room out.old at (row_bytes (net_of bounded.now.net.now.sheet.now) bounded.now.net.now.shape.version arcs.mode.0) }
    ensures { Puts out.old at (row_bytes (net_of bounded.now.net.now.sheet.now) bounded.now.net.now.shape.version arcs.mode.0) out.new result }
{
    let start = at + own_size(bounded.net.shape.version);
    let next = put_halves(bounded, dead, arcs, out, start);
    put_own(out, at, bounded.net.shape.version, (next - start) / 14);
    next
}

pub(crate) fn put_arcs(
    bounded: &Bounded,
    starts: &[u16; 257],
    dead: &[bool; 256],
    out: &mut [u8],
    at: usize,
) -> usize
    requires starts_are { StartsAre (net_of bounded.now.net.now.sheet.now).arcs starts.now }
    requires dead_are { DeadAre (net_of bounded.now.net.now.sheet.now) dead.now }
    requires room { Room out.old at (joined bounded.now.net.now.shape.modes (row_bytes (net_of bounded.now.net.now.sheet.now) bounded.now.net.now.shape.version)) }
    ensures { Puts out.old at (joined bounded.now.net.now.shape.modes (row_bytes (net_of bounded.now.net.now.sheet.now) bounded.now.net.now.shape.version)) out.new result }
{
    let mut next = at;
    for t in 0..bounded.net.shape.modes {
        next = put_mode(
            bounded,
            dead[t],
            arcs_of(bounded.net, starts, Mode(t as u16)),
            out,
            next,
        );
    }
    next
}
