// How long a net's text is, part by part: worked out before a byte is written.
ghost use Rattle.std.specs.Prelude.{◌≡◌, ◌+◌, ◌*◌, ◌≤◌, length};
ghost use mathlib.Core.List.{flat_map};
ghost use Rattle.model.specs.Lists.{joined};
ghost use Rattle.sheets.specs.Decoded.{net_of};
ghost use Rattle.opened.specs.Starts.{StartsAre, ModeArcs, OwnArc};
ghost use Rattle.sheets.specs.written.Written.{of_mode};
ghost use Rattle.pnml.specs.Pnml.{arc_text, mode_text, pnml};
ghost use Rattle.export.specs.texts.Parts.{place_of, arc_no_text};

use crate::elements::sizes::{place_size, weight_size};
use model::{Mode, Pair};
use opened::arcs::arc;
use opened::open::OpenNet;
use opened::shape::start_count;
use opened::starts::{Segment, arcs_of};

fn places_length(net: &OpenNet) -> usize
    ensures { (result ≡ length (joined net.now.shape.pairs (place_of (net_of net.now.sheet.now)))) × (result ≤ 85 * net.now.shape.pairs) }
{
    let mut total = 0;
    for p in 0..net.shape.pairs {
        total += place_size(start_count(net, Pair(p as u16)));
    }
    total
}

fn arc_length(net: &OpenNet, arcs: Segment, i: usize) -> usize
    requires own_arc { OwnArc (net_of net.now.sheet.now).arcs arcs i }
    ensures { (result ≡ length (arc_no_text (net_of net.now.sheet.now) (arcs.start + i))) × (result ≤ 214) }
{
    let a = arc(net, arcs, i);
    weight_size(a.pre) + weight_size(a.post)
}

fn arcs_length(net: &OpenNet, arcs: Segment) -> usize
    requires mode_arcs { ModeArcs (net_of net.now.sheet.now).arcs arcs.mode arcs.start arcs.count }
    ensures { (result ≡ length (flat_map arc_text (of_mode (net_of net.now.sheet.now).arcs arcs.mode.0))) × (result ≤ 214 * arcs.count) }
{
    let mut total = 0;
    for i in 0..arcs.count {
        total += arc_length(net, arcs, i);
    }
    total
}

fn modes_length(net: &OpenNet, starts: &[u16; 257]) -> usize
    requires starts_are { StartsAre (net_of net.now.sheet.now).arcs starts.now }
    ensures { (result ≡ length (joined net.now.shape.modes (mode_text (net_of net.now.sheet.now).arcs))) × (result ≤ 438302 * net.now.shape.modes) }
{
    let mut total = 0;
    for t in 0..net.shape.modes {
        total += 30 + arcs_length(net, arcs_of(net, starts, Mode(t as u16)));
    }
    total
}

pub(crate) fn text_length(net: &OpenNet, starts: &[u16; 257]) -> usize
    requires starts_are { StartsAre (net_of net.now.sheet.now).arcs starts.now }
    ensures { result ≡ length (pnml (net_of net.now.sheet.now)) }
{
    216 + places_length(net) + modes_length(net, starts)
}
