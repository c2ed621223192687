// One mode at a marking, by its own arcs alone: which of 11 to 14 stops it, whether none does, and firing it.
ghost use Rattle.std.specs.Prelude.{◌≡◌, true, ◌↔◌, ◌+◌};
ghost use Rattle.model.specs.Refusals.{answer};
ghost use Rattle.model.specs.Markings.{Marking};
ghost use Rattle.model.specs.Firing.{fired};
ghost use Rattle.sheets.specs.Decoded.{net_of};
ghost use Rattle.opened.specs.Starts.{OwnArc};
ghost use Rattle.fire.specs.firing.AtMode.{Free, Writable, written_at, AtMode, OfMode, stop_at, stop_of, refusal_of, Decides};
ghost use Rattle.leaving.specs.Leaving.{Leaves};

use crate::firing::arcs::meet;
use crate::firing::pair::{is_free, stopped_by};
use heads::head::refused;
use model::{Answer, Fault, Thing, Why};
use opened::arcs::arc;
use opened::open::OpenNet;
use opened::starts::Segment;
use rule::{is_stopped, moved};

fn arc_stop(
    net: &OpenNet,
    arcs: Segment,
    i: usize,
    thing: Thing,
    why: Why,
    marking: &[u32],
) -> Answer
    requires marking { Marking (net_of net.now.sheet.now) marking.now }
    requires own_arc { OwnArc (net_of net.now.sheet.now).arcs arcs i }
    ensures { result ≡ answer (stop_at thing why (net_of net.now.sheet.now) marking.now (arcs.start + i)) }
{
    let at = meet(net, arcs, i, marking);
    if is_stopped(why, at) {
        return refused(thing, Fault::Stopped(why, at.arc.pair, stopped_by(why, at)));
    }
    Ok(())
}

// One of 11 to 14, at its lowest pair.
fn find_stop(net: &OpenNet, arcs: Segment, thing: Thing, why: Why, marking: &[u32]) -> Answer
    requires { AtMode net.now.sheet.now net.now.shape arcs marking.now }
    ensures { OfMode net.now.sheet.now arcs (λ t. result ≡ answer (stop_of thing why (net_of net.now.sheet.now) marking.now t)) }
{
    for i in 0..arcs.count {
        arc_stop(net, arcs, i, thing, why, marking)?;
    }
    Ok(())
}

// "11 over all pairs, 12, 13, 14": each is looked for before the next.
pub fn find_refusal(net: &OpenNet, arcs: Segment, thing: Thing, marking: &[u32]) -> Answer
    requires { AtMode net.now.sheet.now net.now.shape arcs marking.now }
    ensures { OfMode net.now.sheet.now arcs (λ t. result ≡ answer (refusal_of thing (net_of net.now.sheet.now) marking.now t)) }
{
    find_stop(net, arcs, thing, Why::Lacking, marking)?;
    find_stop(net, arcs, thing, Why::OverCapacity, marking)?;
    find_stop(net, arcs, thing, Why::Inhibited, marking)?;
    find_stop(net, arcs, thing, Why::OverLimit, marking)
}

fn arc_free(net: &OpenNet, arcs: Segment, i: usize, marking: &[u32]) -> bool
    requires marking { Marking (net_of net.now.sheet.now) marking.now }
    requires own_arc { OwnArc (net_of net.now.sheet.now).arcs arcs i }
    ensures { (result ≡ true) ↔ Free (net_of net.now.sheet.now) marking.now (arcs.start + i) }
{
    is_free(meet(net, arcs, i, marking))
}

// One pass over the arcs, all four tests at each.
fn arcs_free(net: &OpenNet, arcs: Segment, marking: &[u32]) -> bool
    requires { AtMode net.now.sheet.now net.now.shape arcs marking.now }
    ensures { OfMode net.now.sheet.now arcs (λ t. Decides result (net_of net.now.sheet.now) marking.now t) }
{
    for i in 0..arcs.count {
        if !arc_free(net, arcs, i, marking) {
            return false;
        }
    }
    true
}

fn write_arc(net: &OpenNet, arcs: Segment, i: usize, marking: &mut [u32])
    requires own_arc { OwnArc (net_of net.now.sheet.now).arcs arcs i }
    requires writable { Writable (net_of net.now.sheet.now) marking.old (arcs.start + i) }
    ensures { marking.new ≡ written_at (net_of net.now.sheet.now) marking.old (arcs.start + i) }
{
    let arc = arc(net, arcs, i);
    let p = arc.pair.0 as usize;
    marking[p] = moved(arc, marking[p]);
}

// Fires the mode: only the pairs that its arcs name are written.
fn write_arcs(net: &OpenNet, arcs: Segment, marking: &mut [u32])
    requires { AtMode net.now.sheet.now net.now.shape arcs marking.old }
    ensures { OfMode net.now.sheet.now arcs (λ t. marking.new ≡ fired (net_of net.now.sheet.now) t marking.old) }
{
    for i in 0..arcs.count {
        write_arc(net, arcs, i, marking);
    }
}

// One pass to test; only where it fails a second look for which of 11 to 14 it is.
pub(crate) fn row_answer(net: &OpenNet, arcs: Segment, thing: Thing, marking: &[u32]) -> Answer
    requires { AtMode net.now.sheet.now net.now.shape arcs marking.now }
    ensures { OfMode net.now.sheet.now arcs (λ t. result ≡ answer (refusal_of thing (net_of net.now.sheet.now) marking.now t)) }
{
    if arcs_free(net, arcs, marking) {
        return Ok(());
    }
    find_refusal(net, arcs, thing, marking)
}

// Tested first, then written: a refused movement writes nothing.
pub(crate) fn fire_arcs(net: &OpenNet, arcs: Segment, thing: Thing, marking: &mut [u32]) -> Answer
    requires { AtMode net.now.sheet.now net.now.shape arcs marking.old }
    ensures { OfMode net.now.sheet.now arcs (λ t. Leaves (refusal_of thing (net_of net.now.sheet.now) marking.old t) (fired (net_of net.now.sheet.now) t marking.old) marking.old result marking.new) }
{
    if !arcs_free(net, arcs, marking) {
        return find_refusal(net, arcs, thing, marking);
    }
    write_arcs(net, arcs, marking);
    Ok(())
}
