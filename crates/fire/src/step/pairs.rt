// A step at a marking, pair by pair: which of 11 to 14 stops its sums, and the marking after.
ghost use Rattle.std.specs.Prelude.{◌≡◌, ◌<◌};
ghost use Rattle.model.specs.Refusals.{answer};
ghost use Rattle.model.specs.Markings.{Marking};
ghost use Rattle.model.specs.Nets.{pairs};
ghost use Rattle.model.specs.Firing.{fired_row};
ghost use Rattle.sheets.specs.Decoded.{net_of};
ghost use Rattle.fire.specs.step.Sums.{sums_at, Below, SumIs, stop_at, stop_of, refusal_of};

use crate::firing::arcs::room_at;
use crate::firing::pair::stopped_by;
use crate::step::tables::Sums;
use heads::head::refused;
use model::{Answer, Arc, Fault, Mode, Pair, Thing, Why};
use opened::open::OpenNet;
use rule::{AtPair, is_stopped, moved};

fn sum_at(sums: &Sums, p: usize) -> Arc
    requires { p < 256 }
    ensures { SumIs (sums_at sums.now) p result }
{
    let mode = Mode(0);
    let pair = Pair(p as u16);
    Arc {
        mode,
        pair,
        pre: sums.pre[p],
        post: sums.post[p],
        inhibitor: sums.low[p],
    }
}

fn pair_stop(net: &OpenNet, why: Why, sums: &Sums, marking: &[u32], p: usize) -> Answer
    requires marking { Marking (net_of net.now.sheet.now) marking.now }
    requires below { Below 64 (pairs (net_of net.now.sheet.now)) (sums_at sums.now) }
    requires p_lt_pairs { p < net.now.shape.pairs }
    ensures { result ≡ answer (stop_at why (net_of net.now.sheet.now) (sums_at sums.now) marking.now p) }
{
    let arc = sum_at(sums, p);
    let pair = arc.pair;
    let at = AtPair {
        arc,
        capacity: room_at(net, arc),
        count: marking[p],
    };
    if is_stopped(why, at) {
        let by = stopped_by(why, at);
        return refused(Thing::Argument, Fault::Stopped(why, pair, by));
    }
    Ok(())
}

// One of 11 to 14, at its lowest pair.
fn find_stop(net: &OpenNet, why: Why, sums: &Sums, marking: &[u32]) -> Answer
    requires marking { Marking (net_of net.now.sheet.now) marking.now }
    requires below { Below 64 (pairs (net_of net.now.sheet.now)) (sums_at sums.now) }
    ensures { result ≡ answer (stop_of why (net_of net.now.sheet.now) (sums_at sums.now) marking.now) }
{
    for p in 0..net.shape.pairs {
        pair_stop(net, why, sums, marking, p)?;
    }
    Ok(())
}

// "11, 12, 13, 14 over the sums": each is looked for before the next.
pub(crate) fn find_refusal(net: &OpenNet, sums: &Sums, marking: &[u32]) -> Answer
    requires marking { Marking (net_of net.now.sheet.now) marking.now }
    requires below { Below 64 (pairs (net_of net.now.sheet.now)) (sums_at sums.now) }
    ensures { result ≡ answer (refusal_of (net_of net.now.sheet.now) (sums_at sums.now) marking.now) }
{
    find_stop(net, Why::Lacking, sums, marking)?;
    find_stop(net, Why::OverCapacity, sums, marking)?;
    find_stop(net, Why::Inhibited, sums, marking)?;
    find_stop(net, Why::OverLimit, sums, marking)
}

// M - Pre + Post of the sums at each pair.
pub(crate) fn write_pairs(net: &OpenNet, sums: &Sums, marking: &mut [u32])
    requires marking { Marking (net_of net.now.sheet.now) marking.old }
    requires below { Below 64 (pairs (net_of net.now.sheet.now)) (sums_at sums.now) }
    ensures { marking.new ≡ fired_row (pairs (net_of net.now.sheet.now)) (sums_at sums.now) marking.old }
{
    for p in 0..net.shape.pairs {
        marking[p] = moved(sum_at(sums, p), marking[p]);
    }
}
