// A net sheet: its rule, its counts, its pairs, its arcs.
ghost use Rattle.std.specs.Prelude.{◌≡◌, ◌<◌, ◌≤◌};
ghost use Rattle.model.specs.declared.Version.TheVariants.{Two};
ghost use Rattle.model.specs.Refusals.{answer};
ghost use Rattle.heads.specs.Layout.{pair_count, mode_count, pairs_offset};
ghost use Rattle.heads.specs.Version.{version_of};
ghost use Rattle.heads.specs.Held.{Counted};
ghost use Rattle.sheets.specs.nets.Nets.{arc_section, pair_and_arc_fields, rule_field, net_fields};
ghost use Rattle.sheets.specs.nets.Allowed.{ReadNetAllows};

use crate::nets::arcs::arc_fields;
use crate::nets::groups::group_fields;
use fields::counts::{count_fields, total_of};
use fields::pairs::read_pairs;
use fields::read::count_at;
use heads::head::{fields_at, read_head, refused, sheet_end};
use heads::sheet::Sheet;
use heads::version::version_of;
use model::{Answer, Fault, Thing, Version};

pub fn pair_count(s: &[u8]) -> usize
    requires { Counted s.now }
    ensures { result ≡ pair_count s.now }
{
    let at = fields_at(s);
    total_of(s, at + 4, count_at(s, at))
}

pub fn mode_count(s: &[u8]) -> usize
    requires { Counted s.now }
    ensures { result ≡ mode_count s.now }
{
    let at = fields_at(s);
    total_of(s, at + 4 + 2 * count_at(s, at), count_at(s, at + 2))
}

// Where the pairs stand.
pub fn pairs_at(s: &[u8]) -> usize
    requires { Counted s.now }
    ensures { result ≡ pairs_offset s.now }
{
    let at = fields_at(s);
    at + 4 + 2 * count_at(s, at) + 2 * count_at(s, at + 2)
}

// The arcs as the version has them, from `at` on.
fn arc_section(sheet: &Sheet, modes: usize, pairs: usize, at: usize) -> Answer
    requires at_bound { (at < 4000) × (modes ≤ 256) }
    ensures { result ≡ answer (arc_section (version_of sheet.now.bytes.now) sheet.now.bytes.now modes pairs at) }
{
    match version_of(sheet.bytes) {
        Version::One => arc_fields(sheet, modes, pairs, at),
        Version::Two => group_fields(sheet, modes, pairs, at),
    }
}

fn pair_and_arc_fields(sheet: &Sheet) -> Answer
    requires { Counted sheet.now.bytes.now }
    ensures { result ≡ answer (pair_and_arc_fields sheet.now.bytes.now) }
{
    let start = pairs_at(sheet.bytes);
    let count = pair_count(sheet.bytes);
    read_pairs(sheet, start, count)?;
    arc_section(sheet, mode_count(sheet.bytes), count, start + 8 * count)
}

fn read_rule(sheet: &Sheet) -> Answer
    ensures { result ≡ answer (rule_field Two sheet.now.bytes.now) }
{
    if sheet_end(sheet.bytes) < 6 {
        return refused(Thing::Net, Fault::WrongLength(5));
    }
    if 1 < sheet.bytes[5] {
        return refused(Thing::Net, Fault::CountOutside(5));
    }
    Ok(())
}

// The rule byte, which version 2 alone has.
fn rule_field(sheet: &Sheet) -> Answer
    ensures { result ≡ answer (rule_field (version_of sheet.now.bytes.now) sheet.now.bytes.now) }
{
    match version_of(sheet.bytes) {
        Version::One => Ok(()),
        Version::Two => read_rule(sheet),
    }
}

fn net_fields(sheet: &Sheet) -> Answer
    ensures { result ≡ answer (net_fields sheet.now.bytes.now) }
{
    rule_field(sheet)?;
    count_fields(sheet)?;
    pair_and_arc_fields(sheet)
}

pub fn read_net(s: &[u8]) -> Answer
    ensures { ReadNetAllows s.now result }
{
    read_head(s, Thing::Net)?;
    net_fields(&Sheet { bytes: s })
}
