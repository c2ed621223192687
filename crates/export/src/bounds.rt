// Refusal 19, "at the first finite K or I": all K by their pairs, then the I of the arcs as they stand.
ghost use Rattle.std.specs.Prelude.{◌≡◌, ◌+◌, ◌<◌};
ghost use Rattle.model.specs.First.{first};
ghost use Rattle.model.specs.Refusals.{answer};
ghost use Rattle.sheets.specs.Decoded.{net_of};
ghost use Rattle.opened.specs.Shape.{inhibitor_offset};
ghost use Rattle.opened.specs.Starts.{StartsAre, ModeArcs, OwnArc};
ghost use Rattle.export.specs.Exports.{capacity_offset, bounded_capacity, bounded_inhibitor, refusal19};
ghost use Rattle.export.specs.Bounds.{capacity_refusal, inhibitor_refusal};

use heads::head::refused;
use model::{Answer, Fault, Mode, Pair, Refusal, Thing};
use opened::arcs::{arc, inhibitor_offset};
use opened::finite::is_finite;
use opened::open::OpenNet;
use opened::shape::{capacity, pair_at};
use opened::starts::{Segment, arcs_of};

fn capacity_answer(net: &OpenNet, pair: Pair) -> Answer
    requires pair_lt_pairs { pair.0 < net.now.shape.pairs }
    ensures { result ≡ answer (capacity_refusal net.now.sheet.now pair.0) }
{
    if is_finite(capacity(net, pair)) {
        return refused(Thing::Net, Fault::NotUnbounded(pair_at(net, pair)));
    }
    Ok(())
}

fn capacities_answer(net: &OpenNet) -> Answer
    ensures { result ≡ answer (bounded_capacity (capacity_offset net.now.sheet.now) (net_of net.now.sheet.now)) }
{
    for p in 0..net.shape.pairs {
        capacity_answer(net, Pair(p as u16))?;
    }
    Ok(())
}

fn inhibitor_answer(net: &OpenNet, arcs: Segment, i: usize) -> Answer
    requires own_arc { OwnArc (net_of net.now.sheet.now).arcs arcs i }
    ensures { result ≡ answer (inhibitor_refusal net.now.sheet.now (arcs.start + i)) }
{
    let a = arc(net, arcs, i);
    if is_finite(a.inhibitor) {
        return refused(
            Thing::Net,
            Fault::NotUnbounded(inhibitor_offset(net, arcs, i)),
        );
    }
    Ok(())
}

fn mode_answer(net: &OpenNet, arcs: Segment) -> Answer
    requires mode_arcs { ModeArcs (net_of net.now.sheet.now).arcs arcs.mode arcs.start arcs.count }
    ensures { result ≡ answer (first arcs.count (λ i. inhibitor_refusal net.now.sheet.now (arcs.start + i))) }
{
    for i in 0..arcs.count {
        inhibitor_answer(net, arcs, i)?;
    }
    Ok(())
}

fn inhibitors_answer(net: &OpenNet, starts: &[u16; 257]) -> Answer
    requires starts_are { StartsAre (net_of net.now.sheet.now).arcs starts.now }
    ensures { result ≡ answer (bounded_inhibitor (inhibitor_offset net.now.sheet.now) (net_of net.now.sheet.now)) }
{
    for t in 0..net.shape.modes {
        let arcs = arcs_of(net, starts, Mode(t as u16));
        mode_answer(net, arcs)?;
    }
    Ok(())
}

pub(crate) fn bounds_answer(net: &OpenNet, starts: &[u16; 257]) -> Answer
    requires starts_are { StartsAre (net_of net.now.sheet.now).arcs starts.now }
    ensures { result ≡ answer (refusal19 net.now.sheet.now) }
{
    capacities_answer(net)?;
    inhibitors_answer(net, starts)
}
