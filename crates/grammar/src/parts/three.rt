// A number of low..high (not included) in three digits: at each digit some such number begins with those so far.
ghost use Rattle.std.specs.Prelude.{◌≤◌, ◌<◌, length};
ghost use Rattle.pnml.specs.Pnml.{three};
ghost use Rattle.grammar.specs.parts.Parts.{Reads, Between, DigitAllows};

use crate::parts::Numbered;

fn read_digit(s: &[u8], end: usize, least: u32, most: u32, value: u32) -> Numbered
    requires { (end ≤ length s.now) × (value < 100) }
    ensures { DigitAllows s.now end least most value result }
{
    if end == s.len() || !s[end].is_ascii_digit() {
        return Err(end);
    }
    let next = value * 10 + u32::from(s[end] - b'0');
    if next < least || most < next {
        return Err(end);
    }
    Ok((next, end + 1))
}

pub fn read_three(s: &[u8], at: usize, low: u32, high: u32) -> Numbered
    requires { (at ≤ length s.now) × (low < high) × (high ≤ 999) }
    ensures { Reads (Between low high) three s.now at result }
{
    let most = high - 1;
    let (one, second) = read_digit(s, at, low / 100, most / 100, 0)?;
    let (two, third) = read_digit(s, second, low / 10, most / 10, one)?;
    read_digit(s, third, low, most, two)
}
