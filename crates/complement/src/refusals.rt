// Refusal 15, "finite I at a pair of unbounded K": at its first arc in order, with the arc's offset in the sheet that was given.
ghost use Rattle.std.specs.Prelude.{◌≡◌, ◌+◌};
ghost use Rattle.model.specs.First.{first};
ghost use Rattle.model.specs.Refusals.{answer};
ghost use Rattle.second_form.specs.Complement.{refusal15};
ghost use Rattle.sheets.specs.Decoded.{net_of};
ghost use Rattle.opened.specs.Shape.{arc_offset};
ghost use Rattle.opened.specs.Starts.{StartsAre, ModeArcs, OwnArc};
ghost use Rattle.complement.specs.ArcRefusals.{inhibited_at};

use heads::head::refused;
use model::{Answer, Fault, Mode, Refusal, Thing};
use opened::arcs::{arc, arc_offset};
use opened::finite::is_finite;
use opened::open::OpenNet;
use opened::shape::capacity;
use opened::starts::{Segment, arcs_of};

fn arc_answer(net: &OpenNet, arcs: Segment, i: usize) -> Answer
    requires own_arc { OwnArc (net_of net.now.sheet.now).arcs arcs i }
    ensures { result ≡ answer (inhibited_at net.now.sheet.now (arcs.start + i)) }
{
    let a = arc(net, arcs, i);
    if is_finite(a.inhibitor) && !is_finite(capacity(net, a.pair)) {
        return refused(
            Thing::Net,
            Fault::InhibitedUnbounded(arc_offset(net, arcs, i)),
        );
    }
    Ok(())
}

fn mode_answer(net: &OpenNet, arcs: Segment) -> Answer
    requires mode_arcs { ModeArcs (net_of net.now.sheet.now).arcs arcs.mode arcs.start arcs.count }
    ensures { result ≡ answer (first arcs.count (λ i. inhibited_at net.now.sheet.now (arcs.start + i))) }
{
    for i in 0..arcs.count {
        arc_answer(net, arcs, i)?;
    }
    Ok(())
}

pub(crate) fn arcs_answer(net: &OpenNet, starts: &[u16; 257]) -> Answer
    requires starts_are { StartsAre (net_of net.now.sheet.now).arcs starts.now }
    ensures { result ≡ answer (refusal15 (arc_offset net.now.sheet.now) (net_of net.now.sheet.now)) }
{
    for t in 0..net.shape.modes {
        let arcs = arcs_of(net, starts, Mode(t as u16));
        mode_answer(net, arcs)?;
    }
    Ok(())
}
