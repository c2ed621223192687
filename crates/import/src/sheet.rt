// The sheet of an imported net, part by part: each pair is a place of one colour, each mode a transition of one mode.
ghost use Rattle.std.specs.Prelude.{◌≡◌, ◌≤◌, ◌<◌, length};
ghost use Rattle.model.specs.declared.Version.TheVariants.{One};
ghost use Rattle.sheets.specs.written.Puts.{Room, Puts, sheet_size};
ghost use Rattle.import.specs.scan.Kinds.{ExportOf};
ghost use Rattle.import.specs.Parts.{ones_bytes, counts_bytes, SheetPut};

use crate::arcs::put_arcs;
use crate::places::put_places;
use grammar::State;
use model::{CapacityRule, Version};
use sheets::written::{put_count, put_head};

fn put_ones(out: &mut [u8], at: usize, n: usize) -> usize
    requires { Room out.old at (ones_bytes n) }
    ensures { Puts out.old at (ones_bytes n) out.new result }
{
    let mut next = at;
    for i in 0..n {
        next = put_count(out, next, 1);
    }
    next
}

// Place count, transition count, and 1 for each.
fn put_counts(out: &mut [u8], at: usize, places: usize, modes: usize) -> usize
    requires room { Room out.old at (counts_bytes places modes) }
    requires places_bound { (places < 65536) × (modes < 65536) }
    ensures { Puts out.old at (counts_bytes places modes) out.new result }
{
    let to_transitions = put_count(out, at, places);
    let to_colours = put_count(out, to_transitions, modes);
    let to_modes = put_ones(out, to_colours, places);
    put_ones(out, to_modes, modes)
}

// The text is an export of q's counts.
pub(crate) fn put_sheet(s: &[u8], q: State, size: usize, out: &mut [u8]) -> usize
    requires export_of { ExportOf s.now q }
    requires places_bound { (q.places ≤ 64) × (q.modes ≤ 64) }
    requires size_value { (size ≡ sheet_size One q.places q.modes q.places q.modes q.arcs) × (size ≤ length out.old) }
    ensures { SheetPut s.now out.old out.new result }
{
    let at_counts = put_head(out, Version::One, CapacityRule::Strong, size);
    let at_pairs = put_counts(out, at_counts, q.places as usize, q.modes as usize);
    let places = put_places(s, q, out, at_pairs);
    let at_arcs = put_count(out, places.next, q.arcs as usize);
    let first = places.read;
    put_arcs(s, q, first, out, at_arcs)
}
