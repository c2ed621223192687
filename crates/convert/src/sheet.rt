// The sheet of a net in another version: its parts in turn.
ghost use Rattle.std.specs.Prelude.{◌≡◌, length};
ghost use Rattle.sheets.specs.Decoded.{net_of};
ghost use Rattle.sheets.specs.written.Written.{section_bytes, sheet_of};
ghost use Rattle.sheets.specs.written.Puts.{Room, Puts};
ghost use Rattle.convert.specs.Parts.{common_bytes};

use crate::arcs::put_groups;
use heads::head::fields_at;
use model::Version;
use opened::open::OpenNet;
use opened::starts::starts;
use sheets::written::{put_head, put_part, put_total};

// The counts, the colours, the modes and the pairs, which are the same bytes in both versions.
fn put_common(net: &OpenNet, out: &mut [u8], at: usize) -> usize
    requires room { Room out.old at (common_bytes (net_of net.now.sheet.now)) }
    ensures { Puts out.old at (common_bytes (net_of net.now.sheet.now)) out.new result }
{
    let size = 4 + 2 * net.shape.places + 2 * net.shape.transitions + 8 * net.shape.pairs;
    put_part(net.sheet, fields_at(net.sheet), size, out, at)
}

// The arcs, with their counts as the version has them.
fn put_section(net: &OpenNet, version: Version, out: &mut [u8], at: usize) -> usize
    requires room { Room out.old at (section_bytes version (net_of net.now.sheet.now)) }
    ensures { Puts out.old at (section_bytes version (net_of net.now.sheet.now)) out.new result }
{
    let starts = starts(net);
    let next = put_total(out, at, version, net.shape.arcs);
    put_groups(net, &starts, version, out, next)
}

// The head, with the net's rule where the version has a rule byte, then the other two parts.
pub(crate) fn put_sheet(net: &OpenNet, version: Version, size: usize, out: &mut [u8]) -> usize
    requires size_value { size ≡ length (sheet_of version (net_of net.now.sheet.now)) }
    requires room { Room out.old 0 (sheet_of version (net_of net.now.sheet.now)) }
    ensures { Puts out.old 0 (sheet_of version (net_of net.now.sheet.now)) out.new result }
{
    let at_fields = put_head(out, version, net.shape.rule, size);
    let at_arcs = put_common(net, out, at_fields);
    put_section(net, version, out, at_arcs)
}
