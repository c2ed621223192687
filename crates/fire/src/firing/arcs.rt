// One arc of an open net: its room there, and what it meets at a marking.
ghost use Rattle.std.specs.Prelude.{◌≡◌, ◌+◌, ◌*◌, ◌≤◌, ◌<◌};
ghost use Rattle.model.specs.Numbers.{limit};
ghost use Rattle.model.specs.Firing.{room_at};
ghost use Rattle.model.specs.Markings.{Marking};
ghost use Rattle.fields.specs.Numbers.{bound};
ghost use Rattle.sheets.specs.Decoded.{net_of, net_arc};
ghost use Rattle.opened.specs.Starts.{OwnArc};
ghost use Rattle.fire.specs.firing.AtMode.{Meets};

use crate::firing::pair::room;
use model::Arc;
use opened::arcs::arc;
use opened::open::OpenNet;
use opened::shape::capacity;
use opened::starts::Segment;
use rule::AtPair;

// What 12 compares with where an arc stands, or several in one sum.
pub fn room_at(net: &OpenNet, arc: Arc) -> u32
    requires pair_lt_pairs { (arc.pair.0 < net.now.shape.pairs) × (arc.pre ≤ 64 * limit) }
    ensures { bound result ≡ room_at (net_of net.now.sheet.now) (net_arc arc) }
{
    room(net.shape.rule, capacity(net, arc.pair), arc.pre)
}

pub(crate) fn meet(net: &OpenNet, arcs: Segment, i: usize, marking: &[u32]) -> AtPair
    requires marking { Marking (net_of net.now.sheet.now) marking.now }
    requires own_arc { OwnArc (net_of net.now.sheet.now).arcs arcs i }
    ensures { Meets (net_of net.now.sheet.now) marking.now (arcs.start + i) result }
{
    let arc = arc(net, arcs, i);
    AtPair {
        arc,
        capacity: room_at(net, arc),
        count: marking[arc.pair.0 as usize],
    }
}
