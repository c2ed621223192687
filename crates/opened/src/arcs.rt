// An arc of an accepted net, named by its mode and its index among the mode's arcs: no other crate knows where an arc stands in the sheet.
ghost use Rattle.std.specs.Prelude.{◌≡◌, ◌+◌, ◌≤◌, ◌<◌, length};
ghost use Rattle.heads.specs.Layout.{tail_size};
ghost use Rattle.sheets.specs.Decoded.{net_of};
ghost use Rattle.opened.specs.Shape.{ArcIs, arc_offset, inhibitor_offset, lead_of, stride_of, tail_at};
ghost use Rattle.opened.specs.Starts.{OwnArc};

use crate::bytes::small_at;
use crate::open::OpenNet;
use crate::starts::Segment;
use heads::bytes::u32_at;
use model::{Arc, Mode, Pair, Version};

// How far the 14 bytes of one arc stand from those of the next.
fn stride(version: Version) -> usize
    ensures { (result ≡ stride_of version) × (result ≤ 16) }
{
    match version {
        Version::One => 16,
        Version::Two => 14,
    }
}

// What stands before a mode's arcs beside the arcs: the arc count and the arc's own mode, or the arc counts of the modes.
fn lead(version: Version, mode: Mode) -> usize
    requires { mode.0 < 65536 }
    ensures { (result ≡ lead_of version mode.0) × (result ≤ 131074) }
{
    match version {
        Version::One => 4,
        Version::Two => 2 + 2 * (mode.0 as usize),
    }
}

// Where the arc's 14 bytes stand. One sum for both versions: what does not change from arc to arc is worked out once a loop.
fn tail_of(net: &OpenNet, arcs: Segment, i: usize) -> usize
    requires own_arc { OwnArc (net_of net.now.sheet.now).arcs arcs i }
    ensures { (result ≡ tail_at net.now.sheet.now arcs.mode.0 (arcs.start + i)) × (result + tail_size ≤ length net.now.sheet.now) }
{
    let version = net.shape.version;
    net.shape.arcs_at + lead(version, arcs.mode) + stride(version) * (arcs.start + i)
}

// The position of refusal 15.
pub fn arc_offset(net: &OpenNet, arcs: Segment, i: usize) -> usize
    requires own_arc { OwnArc (net_of net.now.sheet.now).arcs arcs i }
    ensures { result ≡ arc_offset net.now.sheet.now (arcs.start + i) }
{
    let tail = tail_of(net, arcs, i);
    match net.shape.version {
        Version::One => tail - 2,
        Version::Two => tail,
    }
}

// The position of refusal 19 at an arc: where its I stands.
pub fn inhibitor_offset(net: &OpenNet, arcs: Segment, i: usize) -> usize
    requires own_arc { OwnArc (net_of net.now.sheet.now).arcs arcs i }
    ensures { result ≡ inhibitor_offset net.now.sheet.now (arcs.start + i) }
{
    tail_of(net, arcs, i) + 10
}

pub fn arc(net: &OpenNet, arcs: Segment, i: usize) -> Arc
    requires own_arc { OwnArc (net_of net.now.sheet.now).arcs arcs i }
    ensures { ArcIs net.now.sheet.now net.now.shape (arcs.start + i) result }
{
    let at = tail_of(net, arcs, i);
    Arc {
        mode: arcs.mode,
        pair: Pair(small_at(net.sheet, at)),
        pre: u32_at(net.sheet, at + 2),
        post: u32_at(net.sheet, at + 6),
        inhibitor: u32_at(net.sheet, at + 10),
    }
}

// Where the arc's own entry stands in a table with one for each arc of a net: no two arcs share it.
pub fn slot(net: &OpenNet, arcs: Segment, i: usize) -> usize
    requires own_arc { OwnArc (net_of net.now.sheet.now).arcs arcs i }
    ensures { (result ≡ arcs.start + i) × (result < net.now.shape.arcs) }
{
    arcs.start + i
}
