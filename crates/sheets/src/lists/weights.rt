// A weight sheet: the pair count, then one signed weight of 4 bytes for each pair.
ghost use Rattle.std.specs.Prelude.{◌≡◌, ◌<◌, ltb, nat_abs};
ghost use Rattle.model.specs.First.{first};
ghost use Rattle.model.specs.Refusals.{answer};
ghost use Rattle.heads.specs.Layout.{weight_at};
ghost use Rattle.sheets.specs.lists.Weights.{signed, weight_refusal, weight_fields};
ghost use Rattle.sheets.specs.lists.Allowed.{ReadWeightsAllows};

use fields::read::{count_at, left_over};
use heads::bytes::u32_at;
use heads::head::{read_head, refused, sheet_end};
use heads::sheet::Sheet;
use model::{Answer, Fault, Thing};

// Outside -1,000,000..1,000,000, as two's complement.
fn too_heavy(x: u32) -> bool
    ensures { result ≡ ltb 1000000 (nat_abs (signed x)) }
{
    if x < 0x8000_0000 {
        1_000_000 < x
    } else {
        x < 0xfff0_bdc0
    }
}

fn read_weight(sheet: &Sheet, at: usize) -> Answer
    requires at_bound { at < 300000 }
    ensures { result ≡ answer (weight_refusal sheet.now.bytes.now at) }
{
    if sheet_end(sheet.bytes) < at + 4 {
        return refused(Thing::Weights, Fault::WrongLength(at));
    }
    if too_heavy(u32_at(sheet.bytes, at)) {
        return refused(Thing::Weights, Fault::NumberOutside(at));
    }
    Ok(())
}

fn each_weight(sheet: &Sheet, count: usize) -> Answer
    requires count_bound { count < 65536 }
    ensures { result ≡ answer (first count (λ p. weight_refusal sheet.now.bytes.now (weight_at p))) }
{
    for p in 0..count {
        read_weight(sheet, 7 + 4 * p)?;
    }
    Ok(())
}

fn weight_fields(sheet: &Sheet, pairs: usize) -> Answer
    ensures { result ≡ answer (weight_fields pairs sheet.now.bytes.now) }
{
    if sheet_end(sheet.bytes) < 7 {
        return refused(Thing::Weights, Fault::WrongLength(5));
    }
    let count = count_at(sheet.bytes, 5);
    if count != pairs {
        return refused(Thing::Weights, Fault::NotOneEach(5));
    }
    each_weight(sheet, count)?;
    left_over(sheet, Thing::Weights, 7 + 4 * count)
}

// The reader is also given the net's pair count, for 17.
pub fn read_weights(s: &[u8], pairs: usize) -> Answer
    ensures { ReadWeightsAllows s.now pairs result }
{
    read_head(s, Thing::Weights)?;
    weight_fields(&Sheet { bytes: s }, pairs)
}
