// What a line begins with: every kind that is possible is compared, and the farthest position told where none stands there whole.
ghost use Rattle.std.specs.Prelude.{◌≡◌, ◌≤◌, length};
ghost use Rattle.grammar.specs.parts.Parts.{Compares};
ghost use Rattle.import.specs.scan.Kinds.{head_text, possible, Sound, Tried, TryAllows, kinds};

use crate::scan::states::{from_post, up_to};
use crate::scan::{Headed, Kind};
use grammar::State;
use grammar::parts::Literal;
use grammar::parts::constant::compare;
use pnml::{CLOSING, PLACE, POST, PRE, TRANSITION};

#[tactic(auto, unfolding(crate::specs::scan::Kinds::possible))]
fn can_begin(q: State, kind: Kind) -> bool
    requires { Sound q }
    ensures { result ≡ possible q kind }
{
    match kind {
        Kind::Close => 0 < q.places,
        Kind::Place => q.modes == 0 && q.places < 256,
        Kind::Transition => 0 < q.places && q.modes < 256,
        Kind::Pre => 0 < q.modes && q.low < up_to(q),
        Kind::Post => 0 < q.modes && from_post(q) < up_to(q),
    }
}

fn compare_head(s: &[u8], at: usize, kind: Kind) -> Literal
    requires { at ≤ length s.now }
    ensures { Compares s.now at (head_text kind) result }
{
    match kind {
        Kind::Close => compare(s, at, &CLOSING),
        Kind::Place => compare(s, at, &PLACE),
        Kind::Transition => compare(s, at, &TRANSITION),
        Kind::Pre => compare(s, at, &PRE),
        Kind::Post => compare(s, at, &POST),
    }
}

// One kind, where none of those before stands.
fn try_head(s: &[u8], at: usize, q: State, kind: Kind, before: Headed) -> Headed
    requires { (at ≤ length s.now) × Sound q }
    ensures { TryAllows q kind s.now at before result }
{
    let Err(reached) = before else {
        return before;
    };
    if !can_begin(q, kind) {
        return before;
    }
    match compare_head(s, at, kind) {
        Ok(next) => Ok((kind, next)),
        Err(p) => Err(reached.max(p)),
    }
}

pub(crate) fn read_head(s: &[u8], at: usize, q: State) -> Headed
    requires { (at ≤ length s.now) × Sound q }
    ensures { Tried q kinds s.now at result }
{
    let close = try_head(s, at, q, Kind::Close, Err(at));
    let place = try_head(s, at, q, Kind::Place, close);
    let transition = try_head(s, at, q, Kind::Transition, place);
    let pre = try_head(s, at, q, Kind::Pre, transition);
    try_head(s, at, q, Kind::Post, pre)
}
