// What an arc has at the complement pair of a pair of finite K, in numbers: what its mode takes there, Pre, and gives back, Post.
#![tactic(auto)]

ghost use Rattle.std.specs.Prelude.{◌≡◌, cond, ◌+◌, ◌-◌, ◌≤◌};
ghost use Rattle.model.specs.Numbers.{limit};
ghost use Rattle.second_form.specs.Complement.{reserve, claim, complement_pre};
ghost use Rattle.fields.specs.Numbers.{bound};
ghost use Rattle.fields.specs.Arcs.{net_arc};

use model::{Arc, CapacityRule};

// "K less I, or 0 where I ≥ K or unbounded": the larger of the two less I. The number that means unbounded is the largest of 32 bits.
fn reserved(capacity: u32, inhibitor: u32) -> u32
    ensures { result ≡ reserve capacity (bound inhibitor) }
{
    capacity.max(inhibitor) - inhibitor
}

// "Post"; by the weak capacity rule "Post less Pre, or 0" (document 02, P10).
fn claimed(rule: CapacityRule, arc: Arc) -> u32
    ensures { result ≡ claim rule (net_arc arc).entry }
{
    match rule {
        CapacityRule::Strong => arc.post,
        CapacityRule::Weak => arc.post.saturating_sub(arc.pre),
    }
}

// "Pre: the larger of Post and (K less I ..)", or of what the weak rule has for Post.
pub fn taken(rule: CapacityRule, arc: Arc, capacity: u32) -> u32
    ensures { result ≡ complement_pre rule capacity (net_arc arc).entry }
{
    claimed(rule, arc).max(reserved(capacity, arc.inhibitor))
}

// "Post: that number plus the original Pre less the original Post"; "For a locally dead mode .. each complement Post equal to its complement Pre".
pub fn given_back(dead: bool, pre: u32, arc: Arc) -> u32
    requires { (pre ≤ limit) × (arc.pre ≤ limit) × (arc.post ≤ pre + arc.pre) }
    ensures { result ≡ cond dead pre (pre + arc.pre - arc.post) }
{
    if dead { pre } else { pre + arc.pre - arc.post }
}
