// Locally dead modes: "A mode is locally dead when, at some pair, Pre is above the least of K less Post and I, or Post is above K" (document 01, "Certificate, figure, dead modes");
// by the weak capacity rule "when, at some pair, Pre is above the lesser of K and I, or Post is above K" (document 02, P10).
ghost use Rattle.std.specs.Prelude.{◌≡◌, ◌≤◌, ◌<◌};
ghost use Rattle.std.proofs.Math.Option.{none};
ghost use Rattle.model.specs.Numbers.{less_than, least_of};
ghost use Rattle.model.specs.Nets.{modes, mode_no, K};
ghost use Rattle.model.specs.declared.Thing.TheVariants.{Argument};
ghost use Rattle.model.specs.Firing.{absent};
ghost use Rattle.second_form.specs.Dead.{pre_room, kills as kills_here, is_dead, first_dead};
ghost use Rattle.fields.specs.Numbers.{bound};
ghost use Rattle.sheets.specs.Decoded.{net_of, net_arc};
ghost use Rattle.opened.specs.Starts.{StartsAre, ModeArcs, SegmentOf};
ghost use Rattle.opened.specs.dead.IsDead.{deadness};
ghost use Rattle.opened.specs.dead.FirstDead.{name};
ghost use Rattle.opened.specs.dead.Allowed.{IsDeadAllows, FirstDeadAllows};

use crate::arcs::arc;
use crate::open::OpenNet;
use crate::open_net;
use crate::shape::capacity;
use crate::starts::{Segment, arcs_of, find_arcs, starts};
use fields::numbers::above_bound;
use model::{Arc, CapacityRule, Fault, Mode, Pair, Refusal, Thing};

// "K less Post": unbounded where K is, 0 where Post is above K.
fn less(capacity: u32, post: u32) -> u32
    ensures { bound result ≡ less_than (bound capacity) post }
{
    if capacity == 0xffff_ffff {
        return capacity;
    }
    if capacity < post {
        return 0;
    }
    capacity - post
}

// "K less Post", or "K".
fn pre_room(rule: CapacityRule, capacity: u32, arc: Arc) -> u32
    ensures { bound result ≡ pre_room rule (net_arc arc).entry (bound capacity) }
{
    match rule {
        CapacityRule::Strong => less(capacity, arc.post),
        CapacityRule::Weak => capacity,
    }
}

// The lesser of that and I: the number that means unbounded is the largest of 32 bits.
fn highest_pre(room: u32, inhibitor: u32) -> u32
    ensures { bound result ≡ least_of (bound room) (bound inhibitor) }
{
    room.min(inhibitor)
}

// "Pre is above the least .., or Post is above K", by a rule, of an arc at a pair of this K.
fn kills_by(rule: CapacityRule, most: u32, arc: Arc) -> bool
    ensures { result ≡ kills_here rule (net_arc arc).entry (bound most) }
{
    let room = pre_room(rule, most, arc);
    above_bound(arc.pre, highest_pre(room, arc.inhibitor)) || above_bound(arc.post, most)
}

// An arc that spares its mode by document 01's rule spares it by the weak one: the net's own rule is asked of the others alone.
pub fn kills(net: &OpenNet, arc: Arc) -> bool
    requires pair_lt_pairs { arc.pair.0 < net.now.shape.pairs }
    ensures { result ≡ kills_here (net_of net.now.sheet.now).rule (net_arc arc).entry (K (net_of net.now.sheet.now) arc.pair.0) }
{
    let most = capacity(net, arc.pair);
    kills_by(CapacityRule::Strong, most, arc) && kills_by(net.shape.rule, most, arc)
}

// Dead by the arcs of a mode: looked for there alone, since nothing is above a bound where there is none.
fn dead_by(net: &OpenNet, arcs: Segment) -> bool
    requires mode_arcs { ModeArcs (net_of net.now.sheet.now).arcs arcs.mode arcs.start arcs.count }
    ensures { result ≡ is_dead (net_of net.now.sheet.now) arcs.mode }
{
    for i in 0..arcs.count {
        if kills(net, arc(net, arcs, i)) {
            return true;
        }
    }
    false
}

fn dead_at(net: &OpenNet, mode: Mode) -> bool
    requires mode_lt_modes { mode.0 < net.now.shape.modes }
    ensures { result ≡ is_dead (net_of net.now.sheet.now) mode }
{
    dead_by(net, find_arcs(net, mode))
}

// The arcs of the t-th mode.
fn arcs_at(net: &OpenNet, table: &[u16; 257], t: usize) -> Segment
    requires starts_are { StartsAre (net_of net.now.sheet.now).arcs table.now }
    requires t_lt_modes { (t < net.now.shape.modes) × (net.now.shape.modes ≤ 256) }
    ensures { SegmentOf (net_of net.now.sheet.now).arcs (mode_no t) result }
{
    arcs_of(net, table, Mode(t as u16))
}

// The searches over modes and over their arcs both stop at the first fault; each arc is visited at most once.
fn search(net: &OpenNet) -> Option<(Mode, Pair)>
    ensures { result ≡ name (first_dead (net_of net.now.sheet.now)) }
{
    let table = starts(net);
    let mut found = None;
    'search: for t in 0..net.shape.modes {
        let arcs = arcs_at(net, &table, t);
        for i in 0..arcs.count {
            let here = arc(net, arcs, i);
            if kills(net, here) {
                found = Some((here.mode, here.pair));
                break 'search;
            }
        }
    }
    found
}

fn mode_answer(net: &OpenNet, mode: Mode) -> Result<bool, Refusal>
    ensures { result ≡ deadness (absent Argument (modes (net_of net.now.sheet.now)) mode) (is_dead (net_of net.now.sheet.now) mode) }
{
    if net.shape.modes <= mode.0 as usize {
        return Err(Refusal {
            thing: Thing::Argument,
            fault: Fault::NotThere,
        });
    }
    Ok(dead_at(net, mode))
}

pub fn is_dead(net: &[u8], mode: Mode) -> Result<bool, Refusal>
    ensures { IsDeadAllows net.now mode result }
{
    let net = open_net(net)?;
    mode_answer(&net, mode)
}

pub fn first_dead(net: &[u8]) -> Result<Option<(Mode, Pair)>, Refusal>
    ensures { FirstDeadAllows net.now result }
{
    let net = open_net(net)?;
    Ok(search(&net))
}
