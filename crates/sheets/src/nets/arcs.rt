// The arcs of a net sheet of version 1, which rise strictly by mode, then pair.
ghost use Rattle.std.specs.Prelude.{◌≡◌, ◌+◌, ◌*◌, ◌<◌, ◌≤◌, length};
ghost use Rattle.model.specs.First.{first};
ghost use Rattle.model.specs.Refusals.{answer};
ghost use Rattle.heads.specs.Layout.{arc_at};
ghost use Rattle.sheets.specs.nets.Names.{NamesAt};
ghost use Rattle.sheets.specs.nets.Nets.{not_rising, arc_names_refusal, arc_refusal, arc_fields};

use crate::nets::tails::read_numbers;
use fields::counts::read_count;
use fields::read::{count_at, left_over};
use heads::bytes::u16_at;
use heads::head::{refused, sheet_end};
use heads::sheet::Sheet;
use model::{Answer, Fault, Thing};

// The mode and the pair of an arc as one number, which rises as they do.
fn names_at(s: &[u8], at: usize) -> u32
    requires { at + 4 ≤ length s.now }
    ensures { NamesAt s.now at result }
{
    let mode = u16_at(s, at);
    let pair = u16_at(s, at + 2);
    mode as u32 * 65536 + pair as u32
}

fn not_rising(s: &[u8], start: usize, k: usize, names: u32) -> bool
    requires k_bound { (k < 65536) × (start + 16 * k + 16 ≤ length s.now) }
    requires names_at { NamesAt s.now (arc_at start k) names }
    ensures { result ≡ not_rising s.now start k }
{
    k != 0 && names <= names_at(s, start + 16 * (k - 1))
}

// 6 for the mode, 6 for the pair, 7.
fn read_arc_names(s: &[u8], modes: usize, pairs: usize, start: usize, k: usize) -> Answer
    requires { (k < 65536) × (start + 16 * k + 16 ≤ length s.now) × (modes ≤ 256) }
    ensures { result ≡ answer (arc_names_refusal s.now modes pairs start k) }
{
    let at = start + 16 * k;
    let names = names_at(s, at);
    if modes * 65536 <= names as usize {
        return refused(Thing::Net, Fault::NotThereAt(at));
    }
    if pairs <= (names % 65536) as usize {
        return refused(Thing::Net, Fault::NotThereAt(at + 2));
    }
    if not_rising(s, start, k, names) {
        return refused(Thing::Net, Fault::NotRising(at));
    }
    Ok(())
}

fn read_arc(sheet: &Sheet, modes: usize, pairs: usize, start: usize, k: usize) -> Answer
    requires start_bound { (start < 4096) × (k < 65536) × (modes ≤ 256) }
    ensures { result ≡ answer (arc_refusal sheet.now.bytes.now modes pairs start k) }
{
    let at = start + 16 * k;
    if sheet_end(sheet.bytes) < at + 16 {
        return refused(Thing::Net, Fault::WrongLength(at));
    }
    read_arc_names(sheet.bytes, modes, pairs, start, k)?;
    read_numbers(sheet.bytes, at, at + 2)
}

fn read_arcs(sheet: &Sheet, modes: usize, pairs: usize, start: usize, n: usize) -> Answer
    requires start_bound { (start < 4096) × (n < 65536) × (modes ≤ 256) }
    ensures { result ≡ answer (first n (arc_refusal sheet.now.bytes.now modes pairs start)) }
{
    for k in 0..n {
        read_arc(sheet, modes, pairs, start, k)?;
    }
    Ok(())
}

// The arc count at `at`, the arcs, and nothing after them.
pub(crate) fn arc_fields(sheet: &Sheet, modes: usize, pairs: usize, at: usize) -> Answer
    requires at_bound { (at < 4000) × (modes ≤ 256) }
    ensures { result ≡ answer (arc_fields sheet.now.bytes.now modes pairs at) }
{
    read_count(sheet, at, 0, 2048)?;
    let n = count_at(sheet.bytes, at);
    read_arcs(sheet, modes, pairs, at + 2, n)?;
    left_over(sheet, Thing::Net, at + 2 + 16 * n)
}
