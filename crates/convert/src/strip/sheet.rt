// The sheet of the net with a transition appended: its parts in turn. What stays is what stands in the sheet that was read.
ghost use Rattle.sheets.specs.Decoded.{net_of};
ghost use Rattle.sheets.specs.written.Written.{section_bytes, sheet_of};
ghost use Rattle.sheets.specs.written.Puts.{Room, Puts};
ghost use Rattle.bare.specs.Strip.{strip};
ghost use Rattle.convert.specs.strip.Parts.{counts_bytes, records_bytes, Strips};

use crate::arcs::put_groups;
use crate::strip::modes::put_new_modes;
use crate::strip::room::new_size;
use heads::head::fields_at;
use model::Pair;
use opened::open::OpenNet;
use opened::starts::starts;
use sheets::written::{put_count, put_head, put_part, put_total};

// The length, the version, the rule and the counts of places and transitions.
fn put_counts(net: &OpenNet, pair: Pair, k: usize, out: &mut [u8]) -> usize
    requires strips { Strips net.now.sheet.now net.now.shape pair k }
    requires room { Room out.old 0 (counts_bytes (strip (net_of net.now.sheet.now) pair k) net.now.shape.version) }
    ensures { Puts out.old 0 (counts_bytes (strip (net_of net.now.sheet.now) pair k) net.now.shape.version) out.new result }
{
    let at_places = put_head(
        out,
        net.shape.version,
        net.shape.rule,
        new_size(net.shape, k),
    );
    let at_transitions = put_count(out, at_places, net.shape.places);
    put_count(out, at_transitions, net.shape.transitions + 1)
}

// The colours of each place, the modes of each transition and K + 1 for the new one, and the pairs.
fn put_records(net: &OpenNet, pair: Pair, k: usize, out: &mut [u8], at: usize) -> usize
    requires strips { Strips net.now.sheet.now net.now.shape pair k }
    requires room { Room out.old at (records_bytes (net_of net.now.sheet.now) k) }
    ensures { Puts out.old at (records_bytes (net_of net.now.sheet.now) k) out.new result }
{
    let numbers = fields_at(net.sheet) + 4;
    let size = 2 * net.shape.places + 2 * net.shape.transitions;
    let at_new = put_part(net.sheet, numbers, size, out, at);
    let at_pairs = put_count(out, at_new, k + 1);
    put_part(
        net.sheet,
        numbers + size,
        8 * net.shape.pairs,
        out,
        at_pairs,
    )
}

// The arcs, with their counts as the version has them: "Old modes keep their numbers", and the new ones follow.
fn put_section(net: &OpenNet, pair: Pair, k: usize, out: &mut [u8], at: usize) -> usize
    requires strips { Strips net.now.sheet.now net.now.shape pair k }
    requires room { Room out.old at (section_bytes net.now.shape.version (strip (net_of net.now.sheet.now) pair k)) }
    ensures { Puts out.old at (section_bytes net.now.shape.version (strip (net_of net.now.sheet.now) pair k)) out.new result }
{
    let starts = starts(net);
    let at_old = put_total(out, at, net.shape.version, net.shape.arcs + (k + 1));
    let at_new = put_groups(net, &starts, net.shape.version, out, at_old);
    put_new_modes(net.shape.version, net.shape.modes, pair, k + 1, out, at_new)
}

pub(crate) fn put_sheet(net: &OpenNet, pair: Pair, k: usize, out: &mut [u8]) -> usize
    requires strips { Strips net.now.sheet.now net.now.shape pair k }
    requires room { Room out.old 0 (sheet_of net.now.shape.version (strip (net_of net.now.sheet.now) pair k)) }
    ensures { Puts out.old 0 (sheet_of net.now.shape.version (strip (net_of net.now.sheet.now) pair k)) out.new result }
{
    let at_records = put_counts(net, pair, k, out);
    let at_arcs = put_records(net, pair, k, out, at_records);
    put_section(net, pair, k, out, at_arcs)
}
