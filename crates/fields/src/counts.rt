// The counts of a net sheet: places, transitions, colours of each place and modes of each transition, and their totals.
ghost use Rattle.std.specs.Prelude.{◌≡◌, ◌+◌, ◌*◌, ◌<◌, ◌≤◌, length};
ghost use Rattle.model.specs.declared.Thing.TheVariants.{Net};
ghost use Rattle.model.specs.First.{first};
ghost use Rattle.model.specs.Refusals.{answer};
ghost use Rattle.heads.specs.Layout.{total_of};
ghost use Rattle.heads.specs.Checks.{count_refusal};
ghost use Rattle.heads.specs.Held.{Sized};
ghost use Rattle.fields.specs.Fields.{running_refusal, each_count, count_fields};

use crate::read::count_at;
use heads::head::{fields_at, refused, sheet_end};
use heads::sheet::Sheet;
use model::{Answer, Fault, Thing};

pub fn read_count(sheet: &Sheet, at: usize, low: usize, high: usize) -> Answer
    requires at_bound { at < 4096 }
    ensures { result ≡ answer (count_refusal Net sheet.now.bytes.now at low high) }
{
    if sheet_end(sheet.bytes) < at + 2 {
        return refused(Thing::Net, Fault::WrongLength(at));
    }
    let count = count_at(sheet.bytes, at);
    if count < low || high < count {
        return refused(Thing::Net, Fault::CountOutside(at));
    }
    Ok(())
}

// One count more, where those before it make `total`.
fn read_running(sheet: &Sheet, start: usize, i: usize, total: usize) -> Answer
    requires start_bound { (start < 2048) × (i < 64) × (total ≤ 256) }
    requires total_value { total ≡ total_of sheet.now.bytes.now start i }
    ensures { result ≡ answer (running_refusal sheet.now.bytes.now start i) }
{
    let at = start + 2 * i;
    read_count(sheet, at, 1, 64)?;
    if 256 < total + count_at(sheet.bytes, at) {
        return refused(Thing::Net, Fault::CountOutside(at));
    }
    Ok(())
}

fn read_counts(sheet: &Sheet, start: usize, n: usize) -> Answer
    requires start_bound { (start < 2048) × (n ≤ 64) }
    ensures { result ≡ answer (first n (running_refusal sheet.now.bytes.now start)) }
{
    let mut total = 0;
    for i in 0..n {
        read_running(sheet, start, i, total)?;
        total += count_at(sheet.bytes, start + 2 * i);
    }
    Ok(())
}

pub fn total_of(s: &[u8], start: usize, n: usize) -> usize
    requires { (start + 2 * n ≤ length s.now) × (start < 2048) × (n ≤ 64) }
    ensures { result ≡ total_of s.now start n }
{
    let mut total = 0;
    for i in 0..n {
        total += count_at(s, start + 2 * i);
    }
    total
}

fn each_count(sheet: &Sheet) -> Answer
    requires { Sized sheet.now.bytes.now }
    ensures { result ≡ answer (each_count sheet.now.bytes.now) }
{
    let at = fields_at(sheet.bytes);
    let places = count_at(sheet.bytes, at);
    read_counts(sheet, at + 4, places)?;
    read_counts(sheet, at + 4 + 2 * places, count_at(sheet.bytes, at + 2))
}

pub fn count_fields(sheet: &Sheet) -> Answer
    ensures { result ≡ answer (count_fields sheet.now.bytes.now) }
{
    let at = fields_at(sheet.bytes);
    read_count(sheet, at, 1, 64)?;
    read_count(sheet, at + 2, 0, 64)?;
    each_count(sheet)
}
