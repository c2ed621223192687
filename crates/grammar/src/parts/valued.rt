// A constant, a number of low..1,000,000, and a constant that begins with '<'.
ghost use Rattle.std.specs.Prelude.{◌≤◌};
ghost use Rattle.grammar.specs.parts.Parts.{ValuedAllows};

use crate::parts::constant::compare;
use crate::parts::decimal::read_number;
use crate::parts::{Literal, Numbered};

// '<' ends the number, and is the first byte of what follows it.
pub fn read_valued(s: &[u8], before: Literal, low: u32, tail: &[u8]) -> Numbered
    requires { low ≤ 1 }
    ensures { ValuedAllows s.now before low tail.now result }
{
    let at = before?;
    if s.len() < at {
        return Err(at);
    }
    let (value, next) = read_number(s, at, low, b'<')?;
    let end = compare(s, next - 1, tail)?;
    Ok((value, end))
}
