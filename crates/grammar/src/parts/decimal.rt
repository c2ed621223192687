// A number of low..1,000,000 in decimal, without leading zeros.
ghost use Rattle.std.specs.Prelude.{◌≡◌, ◌≤◌, ◌<◌, length};
ghost use Rattle.grammar.specs.parts.Numbers.{next_value, Span, ReadNumberAllows};

use crate::parts::Numbered;

// The value with one digit more, or none where no number of low..1,000,000 goes on so.
fn next_value(low: u32, value: u32, begun: bool, b: u8) -> Option<u32>
    requires { value ≤ 1000000 }
    ensures { result ≡ next_value low value begun b }
{
    if !b.is_ascii_digit() {
        return None;
    }
    let digit = u32::from(b - b'0');
    if !begun {
        return if digit < low { None } else { Some(digit) };
    }
    let next = value * 10 + digit;
    if value == 0 || 1_000_000 < next {
        None
    } else {
        Some(next)
    }
}

// The longest run of digits from `at` on with which some number of low..1,000,000 begins: its value, and where it ends.
fn read_digits(s: &[u8], at: usize, low: u32) -> (u32, usize)
    requires { (at ≤ length s.now) × (low ≤ 1) }
    ensures { Span low s.now at result.0 result.1 }
{
    let mut value = 0;
    for end in at..s.len() {
        let Some(next) = next_value(low, value, at < end, s[end]) else {
            return (value, end);
        };
        value = next;
    }
    (value, s.len())
}

// A number and the byte that must follow it.
pub(crate) fn read_number(s: &[u8], at: usize, low: u32, stop: u8) -> Numbered
    requires { (at ≤ length s.now) × (low ≤ 1) × (57 < stop) }
    ensures { ReadNumberAllows low stop s.now at result }
{
    let (value, end) = read_digits(s, at, low);
    if end == at || end == s.len() || s[end] != stop {
        return Err(end);
    }
    Ok((value, end + 1))
}
