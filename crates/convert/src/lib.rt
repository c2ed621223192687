// The conversions of a net sheet between its two versions (document 02, P9): the same net, written in the other version.
#![tactic(auto)]

pub mod arcs;
mod sheet;
pub mod strip;

ghost use Rattle.std.specs.Prelude.{◌≡◌, length, MatchResult};
ghost use Rattle.std.proofs.Math.Option.{none, some};
ghost use Rattle.model.specs.Refusals.{answer};
ghost use Rattle.sheets.specs.written.Written.{version_number};
ghost use Rattle.sheets.specs.Emitted.{emitted, output};
ghost use Rattle.convert.specs.Converted.{of_version, lost_rule, converted_sheet, open_refusal, conversion_of, output_of};
ghost use Rattle.convert.specs.Allowed.{ToVersion1Allows, ToVersion2Allows};

use crate::sheet::put_sheet;
use heads::head::{read_head, refused};
use model::{Answer, CapacityRule, Fault, Refusal, Thing, Version};
use opened::open::OpenNet;
use opened::open_net;
use sheets::written::sheet_size;

// No `From`: it would stand in `model`, and the number is defined in `sheets`.
fn version_byte(version: Version) -> u8
    ensures { result ≡ version_number version }
{
    match version {
        Version::One => 1,
        Version::Two => 2,
    }
}

// "A conversion answers 2 to a sheet of its target version": it reads its source version alone.
fn open_version(s: &[u8], source: Version) -> Result<OpenNet, Refusal>
    ensures { MatchResult result (λ net. (of_version source s.now ≡ none) × (net.sheet.now ≡ s.now)) (λ r. of_version source s.now ≡ some r) }
{
    read_head(s, Thing::Net)?;
    if s[4] != version_byte(source) {
        return Err(Refusal {
            thing: Thing::Net,
            fault: Fault::WrongVersion(4),
        });
    }
    open_net(s)
}

// "Converting a rule-1 sheet to version 1 is always refused by 23."
fn keep_rule(target: Version, rule: CapacityRule) -> Answer
    ensures { result ≡ answer (lost_rule target rule) }
{
    match (target, rule) {
        (Version::One, CapacityRule::Weak) => refused(Thing::Net, Fault::RuleLost),
        _ => Ok(()),
    }
}

// 23, then "10 to a short output", or the sheet of the same net.
fn convert_open(net: &OpenNet, target: Version, out: &mut [u8]) -> Result<usize, Refusal>
    ensures value { result ≡ emitted (open_refusal target net.now.sheet.now (length out.old)) (length (converted_sheet target net.now.sheet.now)) }
    ensures out_after { out.new ≡ output (open_refusal target net.now.sheet.now (length out.old)) (converted_sheet target net.now.sheet.now) out.old }
{
    keep_rule(target, net.shape.rule)?;
    let size = sheet_size(
        target,
        net.shape.places,
        net.shape.transitions,
        net.shape.pairs,
        net.shape.modes,
        net.shape.arcs,
    );
    if out.len() < size {
        return Err(Refusal {
            thing: Thing::Net,
            fault: Fault::NoRoom,
        });
    }
    Ok(put_sheet(net, target, size, out))
}

fn convert(s: &[u8], source: Version, target: Version, out: &mut [u8]) -> Result<usize, Refusal>
    ensures value { result ≡ conversion_of source target s.now out.old }
    ensures out_after { out.new ≡ output_of source target s.now out.old }
{
    let net = open_version(s, source)?;
    convert_open(&net, target, out)
}

// Writes the net of a version 1 sheet in version 2, from the first byte of `out` on.
pub fn to_version_2(net: &[u8], out: &mut [u8]) -> Result<usize, Refusal>
    ensures { ToVersion2Allows net.now out.old (result, out.new) }
{
    convert(net, Version::One, Version::Two, out)
}

// And back: "with the old bytes returned exactly".
pub fn to_version_1(net: &[u8], out: &mut [u8]) -> Result<usize, Refusal>
    ensures { ToVersion1Allows net.now out.old (result, out.new) }
{
    convert(net, Version::Two, Version::One, out)
}
