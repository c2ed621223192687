// The pairs of a net sheet: K and the first marking of each.
ghost use Rattle.std.specs.Prelude.{◌≡◌, ◌+◌, ◌<◌, ◌≤◌, length};
ghost use Rattle.model.specs.First.{first};
ghost use Rattle.model.specs.Refusals.{answer};
ghost use Rattle.heads.specs.Layout.{pair_at};
ghost use Rattle.fields.specs.Fields.{capacity_refusal, start_refusal, pair_refusal};

use crate::numbers::{above_bound, bound_outside};
use heads::bytes::u32_at;
use heads::head::{refused, sheet_end};
use heads::sheet::Sheet;
use model::{Answer, Fault, Thing};

fn read_capacity(sheet: &Sheet, at: usize) -> Answer
    requires at_bound { at < 4096 }
    ensures { result ≡ answer (capacity_refusal sheet.now.bytes.now at) }
{
    if sheet_end(sheet.bytes) < at + 4 {
        return refused(Thing::Net, Fault::WrongLength(at));
    }
    if bound_outside(u32_at(sheet.bytes, at)) {
        return refused(Thing::Net, Fault::NumberOutside(at));
    }
    Ok(())
}

// The first marking of the pair at `at`, whose K is there.
fn read_start(sheet: &Sheet, at: usize) -> Answer
    requires at_bound { (at < 4096) × (at + 4 ≤ length sheet.now.bytes.now) }
    ensures { result ≡ answer (start_refusal sheet.now.bytes.now at) }
{
    if sheet_end(sheet.bytes) < at + 4 + 4 {
        return refused(Thing::Net, Fault::WrongLength(at + 4));
    }
    let start = u32_at(sheet.bytes, at + 4);
    if 1_000_000 < start {
        return refused(Thing::Net, Fault::NumberOutside(at + 4));
    }
    if above_bound(start, u32_at(sheet.bytes, at)) {
        return refused(Thing::Net, Fault::StartAboveCapacity(at + 4));
    }
    Ok(())
}

fn read_pair(sheet: &Sheet, at: usize) -> Answer
    requires at_bound { at < 4096 }
    ensures { result ≡ answer (pair_refusal sheet.now.bytes.now at) }
{
    read_capacity(sheet, at)?;
    read_start(sheet, at)
}

pub fn read_pairs(sheet: &Sheet, start: usize, n: usize) -> Answer
    requires start_bound { (start < 2048) × (n ≤ 256) }
    ensures { result ≡ answer (first n (λ p. pair_refusal sheet.now.bytes.now (pair_at start p))) }
{
    for p in 0..n {
        read_pair(sheet, start + 8 * p)?;
    }
    Ok(())
}
