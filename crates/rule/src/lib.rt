// What a mode meets at one of its pairs: refusals 11 to 14, and the count after firing.
#![tactic(auto)]

ghost use Rattle.std.specs.Prelude.{◌≡◌, ◌+◌};
ghost use Rattle.model.specs.Firing.{after, stops};
ghost use Rattle.fields.specs.Numbers.{bound};
ghost use Rattle.fields.specs.Arcs.{net_arc};
ghost use Rattle.rule.specs.AtPair.{Counted};

use fields::numbers::above_bound;
use model::{Arc, Why};

// An arc, what 12 compares with at its pair, written as a sheet writes K, and the count there.
#[derive(Clone, Copy)]
pub struct AtPair {
    pub arc: Arc,
    pub capacity: u32,
    pub count: u32,
}

// "Firing gives M - Pre + Post."
pub fn moved(arc: Arc, count: u32) -> u32
    requires { Counted arc count }
    ensures { result ≡ after (net_arc arc).entry count }
{
    count.saturating_sub(arc.pre) + arc.post
}

// M + Post, which either rule compares: "Pre is not taken off before the capacity test."
pub fn with_post(arc: Arc, count: u32) -> u32
    requires { Counted arc count }
    ensures { result ≡ count + arc.post }
{
    count + arc.post
}

pub fn is_stopped(why: Why, at: AtPair) -> bool
    requires { Counted at.arc at.count }
    ensures { result ≡ stops why (net_arc at.arc).entry (bound at.capacity) at.count }
{
    let arc = at.arc;
    match why {
        Why::Lacking => at.count < arc.pre,
        Why::OverCapacity => above_bound(with_post(arc, at.count), at.capacity),
        // no count is above the number that means unbounded
        Why::Inhibited => arc.inhibitor < at.count,
        Why::OverLimit => 1_000_000 < moved(arc, at.count),
    }
}
