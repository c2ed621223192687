// An arc after its head: the mode in hand, a pair of low..high (not included), where it goes from and to, and its weight.
ghost use Rattle.std.specs.Prelude.{◌≤◌, ◌<◌, length};
ghost use Rattle.grammar.specs.parts.Parts.{Compares, Reads, Between};
ghost use Rattle.import.specs.scan.Kinds.{pair_text, ends_text, ArcAllows};

use crate::scan::Arced;
use grammar::parts::constant::{compare, then_bytes, then_three};
use grammar::parts::three::read_three;
use grammar::parts::valued::read_valued;
use grammar::parts::{Literal, Numbered};
use pnml::{AND_PAIR, ARC_END, FROM_PLACE, FROM_TRANSITION, TO_PLACE, TO_TRANSITION, WEIGHT};

fn read_pair(s: &[u8], at: usize, mode: u32, low: u32, high: u32) -> Numbered
    requires { (at ≤ length s.now) × (mode < 1000) × (low < high) × (high ≤ 999) }
    ensures { Reads (Between low high) (pair_text mode) s.now at result }
{
    let number = then_three(s, Ok(at), mode);
    let next = then_bytes(s, number, &AND_PAIR)?;
    read_three(s, next, low, high)
}

// A Pre arc goes from the place to the transition, a Post arc back.
fn compare_ends(s: &[u8], at: usize, mode: u32, pair: u32, taking: bool) -> Literal
    requires { (at ≤ length s.now) × (mode < 1000) × (pair < 1000) }
    ensures { Compares s.now at (ends_text taking mode pair) result }
{
    if taking {
        let source = compare(s, at, &FROM_PLACE);
        let place = then_three(s, source, pair);
        let target = then_bytes(s, place, &TO_TRANSITION);
        let transition = then_three(s, target, mode);
        return then_bytes(s, transition, &WEIGHT);
    }
    let source = compare(s, at, &FROM_TRANSITION);
    let transition = then_three(s, source, mode);
    let target = then_bytes(s, transition, &TO_PLACE);
    let place = then_three(s, target, pair);
    then_bytes(s, place, &WEIGHT)
}

pub(crate) fn read_arc(s: &[u8], at: usize, mode: u32, low: u32, high: u32, taking: bool) -> Arced
    requires { (at ≤ length s.now) × (mode < 1000) × (low < high) × (high ≤ 999) }
    ensures { ArcAllows taking mode low high s.now at result }
{
    let (pair, next) = read_pair(s, at, mode, low, high)?;
    let ends = compare_ends(s, next, mode, pair, taking);
    let (weight, end) = read_valued(s, ends, 1, &ARC_END)?;
    Ok((pair, weight, end))
}
