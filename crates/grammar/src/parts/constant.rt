// Constant bytes, and the three digits of a number that is known, one after the other.
ghost use Rattle.std.specs.Prelude.{◌≤◌, ◌<◌, length};
ghost use Rattle.pnml.specs.Pnml.{three};
ghost use Rattle.grammar.specs.parts.Parts.{Compares, Continues};

use crate::parts::Literal;

pub fn compare(s: &[u8], at: usize, c: &[u8]) -> Literal
    requires { at ≤ length s.now }
    ensures { Compares s.now at c.now result }
{
    for n in 0..c.len() {
        if at + n == s.len() || s[at + n] != c[n] {
            return Err(at + n);
        }
    }
    Ok(at + c.len())
}

pub fn then_bytes(s: &[u8], before: Literal, c: &[u8]) -> Literal
    ensures { Continues s.now before c.now result }
{
    let at = before?;
    if s.len() < at {
        return before;
    }
    compare(s, at, c)
}

pub fn then_three(s: &[u8], before: Literal, n: u32) -> Literal
    requires { n < 1000 }
    ensures { Continues s.now before (three n) result }
{
    let digits = [
        (48 + n / 100) as u8,
        (48 + n / 10 % 10) as u8,
        (48 + n % 10) as u8,
    ];
    then_bytes(s, before, &digits)
}
