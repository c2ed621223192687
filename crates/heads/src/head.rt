// The head of every sheet: its length L and its version (document 01, "Order in a sheet: 1, then L = 0, then 2"), and where a net's fields begin.
ghost use Rattle.std.specs.Prelude.{◌≡◌, ◌≤◌, length};
ghost use Rattle.model.specs.Refusals.{answer, wrong};
ghost use Rattle.heads.specs.Layout.{sheet_end, fields_at};
ghost use Rattle.heads.specs.Checks.{known, head_refusal};
ghost use Rattle.heads.specs.Held.{Headed};

use crate::bytes::u32_at;
use crate::version::version_of;
use model::{Answer, Fault, Refusal, Thing, Version};

pub fn refused(thing: Thing, fault: Fault) -> Answer
    ensures { result ≡ Err (wrong thing fault) }
{
    Err(Refusal { thing, fault })
}

// The first byte after the sheet: a number without wrap.
pub fn sheet_end(s: &[u8]) -> usize
    requires { 4 ≤ length s.now }
    ensures { result ≡ sheet_end s.now }
{
    4 + u32_at(s, 0) as usize
}

// "Only net sheets have a version 2."
fn is_known(thing: Thing, version: u8) -> bool
    ensures { result ≡ known thing version }
{
    version == 1 || (version == 2 && matches!(thing, Thing::Net))
}

// Where the fields of a net sheet begin.
pub fn fields_at(s: &[u8]) -> usize
    requires { Headed s.now }
    ensures { (result ≡ fields_at s.now) × (result ≤ 6) }
{
    match version_of(s) {
        Version::One => 5,
        Version::Two => 6,
    }
}

pub fn read_head(s: &[u8], thing: Thing) -> Answer
    ensures { result ≡ answer (head_refusal thing s.now) }
{
    if s.len() < 4 {
        return refused(thing, Fault::CutShort);
    }
    let end = sheet_end(s);
    if s.len() < end {
        return refused(thing, Fault::CutShort);
    }
    if end == 4 {
        return refused(thing, Fault::WrongLength(0));
    }
    if !is_known(thing, s[4]) {
        return refused(thing, Fault::WrongVersion(4));
    }
    Ok(())
}
