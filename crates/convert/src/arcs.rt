// The arcs of a net, put in either version: mode by mode, each mode's after their own count where the version has it.
ghost use mathlib.Core.List.{flat_map};
ghost use Rattle.std.specs.Prelude.{◌+◌, ◌≤◌, length};
ghost use Rattle.model.specs.Lists.{joined};
ghost use Rattle.sheets.specs.Decoded.{net_of};
ghost use Rattle.opened.specs.Starts.{StartsAre, ModeArcs, OwnArc};
ghost use Rattle.sheets.specs.written.Written.{arc_bytes, of_mode};
ghost use Rattle.sheets.specs.written.Puts.{Put, Room, Puts, mode_size};
ghost use Rattle.convert.specs.Parts.{arc_no_bytes, mode_group};

use model::{Mode, Version};
use opened::arcs::arc;
use opened::open::OpenNet;
use opened::starts::{Segment, arcs_of};
use sheets::written::{put_arc_mode, put_own, put16, put32};

// The i-th arc of a mode.
fn put_arc(
    net: &OpenNet,
    arcs: Segment,
    i: usize,
    version: Version,
    out: &mut [u8],
    at: usize,
) -> usize
    requires own_arc { OwnArc (net_of net.now.sheet.now).arcs arcs i }
    requires version_in_bounds { at + (mode_size version + 14) ≤ length out.old }
    ensures { Put out.old at (mode_size version + 14) (arc_no_bytes version (net_of net.now.sheet.now) (arcs.start + i)) out.new result }
{
    let a = arc(net, arcs, i);
    let to_pair = put_arc_mode(out, at, version, a.mode.0);
    let to_pre = put16(out, to_pair, a.pair.0);
    let to_post = put32(out, to_pre, a.pre);
    let to_inhibitor = put32(out, to_post, a.post);
    put32(out, to_inhibitor, a.inhibitor)
}

fn put_mode_arcs(net: &OpenNet, arcs: Segment, version: Version, out: &mut [u8], at: usize) -> usize
    requires mode_arcs { ModeArcs (net_of net.now.sheet.now).arcs arcs.mode arcs.start arcs.count }
    requires room { Room out.old at (flat_map (arc_bytes version) (of_mode (net_of net.now.sheet.now).arcs arcs.mode.0)) }
    ensures { Puts out.old at (flat_map (arc_bytes version) (of_mode (net_of net.now.sheet.now).arcs arcs.mode.0)) out.new result }
{
    let mut next = at;
    for i in 0..arcs.count {
        next = put_arc(net, arcs, i, version, out, next);
    }
    next
}

fn put_group(net: &OpenNet, arcs: Segment, version: Version, out: &mut [u8], at: usize) -> usize
    requires mode_arcs { ModeArcs (net_of net.now.sheet.now).arcs arcs.mode arcs.start arcs.count }
    requires room { Room out.old at (mode_group version (net_of net.now.sheet.now) arcs.mode.0) }
    ensures { Puts out.old at (mode_group version (net_of net.now.sheet.now) arcs.mode.0) out.new result }
{
    let next = put_own(out, at, version, arcs.count);
    put_mode_arcs(net, arcs, version, out, next)
}

pub(crate) fn put_groups(
    net: &OpenNet,
    starts: &[u16; 257],
    version: Version,
    out: &mut [u8],
    at: usize,
) -> usize
    requires starts_are { StartsAre (net_of net.now.sheet.now).arcs starts.now }
    requires room { Room out.old at (joined net.now.shape.modes (mode_group version (net_of net.now.sheet.now))) }
    ensures { Puts out.old at (joined net.now.shape.modes (mode_group version (net_of net.now.sheet.now))) out.new result }
{
    let mut next = at;
    for t in 0..net.shape.modes {
        let arcs = arcs_of(net, starts, Mode(t as u16));
        next = put_group(net, arcs, version, out, next);
    }
    next
}
