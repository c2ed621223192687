// Exact sums over an open net and weights that were accepted for its pairs: the figure of a marking, and a mode's weight change.
ghost use Rattle.std.specs.Prelude.{◌≡◌, ◌+◌, ◌≤◌, ◌<◌, pos, ◌*ℤ◌, ◌-ℤ◌};
ghost use Rattle.std.proofs.Math.Option.{none};
ghost use Rattle.model.specs.Nets.{arc_no};
ghost use Rattle.model.specs.Markings.{Marking};
ghost use Rattle.movement.specs.Figures.{sum as sum_to, weight as weight_of, figure, change};
ghost use Rattle.movement.proofs.Figures.{gain as gain_by_arc};
ghost use Rattle.sheets.specs.lists.Weights.{weights_refusal};
ghost use Rattle.sheets.specs.Decoded.{net_of, weights_of};
ghost use Rattle.opened.specs.Starts.{StartsAre, ModeArcs, OwnArc};

use model::{Mode, Pair};
use opened::arcs::arc;
use opened::listed::weight;
use opened::open::OpenNet;
use opened::starts::{Segment, arcs_of};

// "weight times (Post less Pre)", exact: 2^31 times less than 2^32 is less than 2^63.
fn gain(weight: i32, pre: u32, post: u32) -> i64
    ensures { result ≡ weight *ℤ (pos post -ℤ pos pre) }
{
    i64::from(weight) * (i64::from(post) - i64::from(pre))
}

// What the count of the p-th pair weighs: its gain over none.
fn term(weights: &[u8], pairs: usize, p: usize, count: u32) -> i64
    requires weights_value { weights_refusal pairs weights.now ≡ none }
    requires p_lt_pairs { (p < pairs) × (pairs ≤ 256) }
    ensures { result ≡ weight_of (weights_of weights.now) p *ℤ pos count }
{
    gain(weight(weights, pairs, Pair(p as u16)), 0, count)
}

// "The figure is the sum over all pairs of weight times count."
pub(crate) fn figure_of(net: &OpenNet, weights: &[u8], marking: &[u32]) -> i64
    requires weights_value { weights_refusal net.now.shape.pairs weights.now ≡ none }
    requires marking { Marking (net_of net.now.sheet.now) marking.now }
    ensures { result ≡ figure (net_of net.now.sheet.now) (weights_of weights.now) marking.now }
{
    let mut sum: i64 = 0;
    for p in 0..net.shape.pairs {
        sum += term(weights, net.shape.pairs, p, marking[p]);
    }
    sum
}

// What the i-th arc adds to its mode's weight change.
fn arc_gain(net: &OpenNet, weights: &[u8], arcs: Segment, i: usize) -> i64
    requires weights_value { weights_refusal net.now.shape.pairs weights.now ≡ none }
    requires own_arc { OwnArc (net_of net.now.sheet.now).arcs arcs i }
    ensures { result ≡ gain_by_arc (weights_of weights.now) (arc_no (net_of net.now.sheet.now).arcs (arcs.start + i)) }
{
    let arc = arc(net, arcs, i);
    gain(
        weight(weights, net.shape.pairs, arc.pair),
        arc.pre,
        arc.post,
    )
}

pub(crate) fn gains(net: &OpenNet, weights: &[u8], arcs: Segment) -> i64
    requires weights_value { weights_refusal net.now.shape.pairs weights.now ≡ none }
    requires mode_arcs { ModeArcs (net_of net.now.sheet.now).arcs arcs.mode arcs.start arcs.count }
    ensures { result ≡ sum_to arcs.count (λ k. gain_by_arc (weights_of weights.now) (arc_no (net_of net.now.sheet.now).arcs (arcs.start + k))) }
{
    let mut sum: i64 = 0;
    for i in 0..arcs.count {
        sum += arc_gain(net, weights, arcs, i);
    }
    sum
}

// "A mode's weight change is the sum of weight times (Post less Pre)": over its own arcs, since elsewhere Pre = Post = 0.
pub(crate) fn change_of(net: &OpenNet, starts: &[u16; 257], weights: &[u8], mode: Mode) -> i64
    requires starts_are { StartsAre (net_of net.now.sheet.now).arcs starts.now }
    requires weights_value { weights_refusal net.now.shape.pairs weights.now ≡ none }
    requires mode_lt_modes { mode.0 < net.now.shape.modes }
    ensures { result ≡ change (net_of net.now.sheet.now) (weights_of weights.now) mode }
{
    gains(net, weights, arcs_of(net, starts, mode))
}
