// What a mode meets at one of its pairs, by the tests of `rule`: what 12 compares with, by how much one of them stops it, and whether none does.
ghost use Rattle.std.specs.Prelude.{◌≡◌, true, ◌↔◌};
ghost use Rattle.model.specs.Firing.{room_for, stopped_by};
ghost use Rattle.fields.specs.Numbers.{bound};
ghost use Rattle.fields.specs.Arcs.{net_arc};
ghost use Rattle.rule.specs.AtPair.{Counted, Roomy, Unstopped};

use model::{CapacityRule, Why};
use rule::{AtPair, is_stopped, moved, with_post};

// "12 reads by the rule in force": K, or K + Pre. An unbounded K stays so: its number is the greatest of 32 bits.
pub(crate) fn room(rule: CapacityRule, capacity: u32, pre: u32) -> u32
    requires { Roomy capacity pre }
    ensures { bound result ≡ room_for rule (bound capacity) pre }
{
    match rule {
        CapacityRule::Strong => capacity,
        CapacityRule::Weak => capacity.saturating_add(pre),
    }
}

// "how many tokens are lacking (11), over capacity (12), over the inhibitor (13) or over the counter's limit (14)"
pub(crate) fn stopped_by(why: Why, at: AtPair) -> u32
    requires { Counted at.arc at.count }
    ensures { result ≡ stopped_by why (net_arc at.arc).entry (bound at.capacity) at.count }
{
    let arc = at.arc;
    match why {
        Why::Lacking => arc.pre.saturating_sub(at.count),
        // no number is above the one that means unbounded
        Why::OverCapacity => with_post(arc, at.count).saturating_sub(at.capacity),
        Why::Inhibited => at.count.saturating_sub(arc.inhibitor),
        Why::OverLimit => moved(arc, at.count).saturating_sub(1_000_000),
    }
}

// All four tests.
pub fn is_free(at: AtPair) -> bool
    requires { Counted at.arc at.count }
    ensures { (result ≡ true) ↔ Unstopped (net_arc at.arc).entry (bound at.capacity) at.count }
{
    !(is_stopped(Why::Lacking, at)
        || is_stopped(Why::OverCapacity, at)
        || is_stopped(Why::Inhibited, at)
        || is_stopped(Why::OverLimit, at))
}
