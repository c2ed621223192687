// The arcs of a net sheet of version 2: for each mode its arc count, then its arcs, which rise strictly by pair.
ghost use Rattle.std.specs.Prelude.{◌≡◌, ◌+◌, ◌*◌, ◌<◌, ◌≤◌, length};
ghost use Rattle.model.specs.First.{first};
ghost use Rattle.model.specs.Refusals.{answer};
ghost use Rattle.heads.specs.Layout.{arcs_before};
ghost use Rattle.sheets.specs.nets.Groups.{pair_not_rising, pair_name_refusal, group_arc_refusal, group_refusal, group_fields};

use crate::nets::tails::read_numbers;
use fields::read::{count_at, left_over};
use heads::bytes::u16_at;
use heads::head::{refused, sheet_end};
use heads::sheet::Sheet;
use model::{Answer, Fault, Thing};

fn pair_not_rising(s: &[u8], start: usize, i: usize) -> bool
    requires { (i < 65536) × (start + 14 * i + 14 ≤ length s.now) }
    ensures { result ≡ pair_not_rising s.now start i }
{
    i != 0 && u16_at(s, start + 14 * i) <= u16_at(s, start + 14 * (i - 1))
}

// 6 for the pair, 7.
fn read_pair_name(s: &[u8], pairs: usize, start: usize, i: usize) -> Answer
    requires { (i < 65536) × (start + 14 * i + 14 ≤ length s.now) }
    ensures { result ≡ answer (pair_name_refusal s.now pairs start i) }
{
    let at = start + 14 * i;
    if pairs <= count_at(s, at) {
        return refused(Thing::Net, Fault::NotThereAt(at));
    }
    if pair_not_rising(s, start, i) {
        return refused(Thing::Net, Fault::NotRising(at));
    }
    Ok(())
}

fn read_group_arc(sheet: &Sheet, pairs: usize, start: usize, i: usize) -> Answer
    requires start_bound { (start < 65536) × (i < 65536) }
    ensures { result ≡ answer (group_arc_refusal sheet.now.bytes.now pairs start i) }
{
    let at = start + 14 * i;
    if sheet_end(sheet.bytes) < at + 14 {
        return refused(Thing::Net, Fault::WrongLength(at));
    }
    read_pair_name(sheet.bytes, pairs, start, i)?;
    read_numbers(sheet.bytes, at, at)
}

fn read_group_arcs(sheet: &Sheet, pairs: usize, start: usize, n: usize) -> Answer
    requires start_bound { (start < 65536) × (n < 65536) }
    ensures { result ≡ answer (first n (group_arc_refusal sheet.now.bytes.now pairs start)) }
{
    for i in 0..n {
        read_group_arc(sheet, pairs, start, i)?;
    }
    Ok(())
}

// The arc count and the arcs of mode t, where k arcs stand before them.
fn read_group(sheet: &Sheet, pairs: usize, base: usize, t: usize, k: usize) -> Answer
    requires base_bound { (base < 4096) × (t < 256) × (k ≤ 2048) }
    requires k_value { k ≡ arcs_before sheet.now.bytes.now base t }
    ensures { result ≡ answer (group_refusal sheet.now.bytes.now pairs base t) }
{
    let at = base + 2 * t + 14 * k;
    if sheet_end(sheet.bytes) < at + 2 {
        return refused(Thing::Net, Fault::WrongLength(at));
    }
    let count = count_at(sheet.bytes, at);
    if 2048 < k + count {
        return refused(Thing::Net, Fault::CountOutside(at));
    }
    read_group_arcs(sheet, pairs, at + 2, count)
}

// Mode by mode, and nothing after them.
pub(crate) fn group_fields(sheet: &Sheet, modes: usize, pairs: usize, base: usize) -> Answer
    requires base_bound { (base < 4096) × (modes ≤ 256) }
    ensures { result ≡ answer (group_fields sheet.now.bytes.now pairs modes base) }
{
    let mut k = 0;
    for t in 0..modes {
        read_group(sheet, pairs, base, t, k)?;
        k += count_at(sheet.bytes, base + 2 * t + 14 * k);
    }
    left_over(sheet, Thing::Net, base + 2 * modes + 14 * k)
}
