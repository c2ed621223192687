// The sheet of the complement: how large it is, and its parts in turn.
ghost use Rattle.std.specs.Prelude.{◌≡◌, ◌*◌, ◌≤◌, ◌<◌, length};
ghost use Rattle.second_form.specs.Complement.{complement};
ghost use Rattle.sheets.specs.Decoded.{net_of};
ghost use Rattle.opened.specs.Starts.{StartsAre};
ghost use Rattle.sheets.specs.written.Written.{section_bytes, sheet_of};
ghost use Rattle.complement.specs.sections.DeadModes.{DeadAre};
ghost use Rattle.complement.specs.Sizes.{SizesWith, Few, counts_bytes, records_bytes};
ghost use Rattle.sheets.specs.written.Puts.{Room, Puts};

use crate::sections::arcs::put_arcs;
use crate::sections::bounded::{Bounded, bounded_between};
use crate::sections::pairs::put_pairs;
use crate::sections::places::{count_new_places, put_modes, put_places};
use opened::open::OpenNet;
use sheets::written::{head_size, put_count, put_head, put_total, total_size};

// How many places and pairs the complement has, and how many arcs: as many as it has, or at most so many.
#[derive(Clone, Copy)]
pub(crate) struct Sizes {
    pub places: usize,
    pub pairs: usize,
    pub arcs: usize,
}

pub(crate) fn complement_sizes(bounded: &Bounded, arcs: usize) -> Sizes
    requires arcs_bound { arcs ≤ 4096 }
    ensures { SizesWith (net_of bounded.now.net.now.sheet.now) arcs result × Few result }
{
    Sizes {
        places: bounded.net.shape.places + count_new_places(bounded),
        pairs: bounded.net.shape.pairs + bounded_between(bounded, 0, bounded.net.shape.pairs),
        arcs,
    }
}

// The length, the version, the rule and the counts of places and transitions, of a sheet of `size` bytes.
fn put_counts(net: &OpenNet, places: usize, size: usize, out: &mut [u8]) -> usize
    requires places_value { (places ≡ length (complement (net_of net.now.sheet.now)).colours) × (places ≤ 128) }
    requires size_value { (size ≡ length (sheet_of net.now.shape.version (complement (net_of net.now.sheet.now)))) × (size < 4294967296) }
    requires room { Room out.old 0 (counts_bytes net.now.shape.version (complement (net_of net.now.sheet.now))) }
    ensures { Puts out.old 0 (counts_bytes net.now.shape.version (complement (net_of net.now.sheet.now))) out.new result }
{
    let at_places = put_head(out, net.shape.version, net.shape.rule, size);
    let at_transitions = put_count(out, at_places, places);
    put_count(out, at_transitions, net.shape.transitions)
}

fn put_records(bounded: &Bounded, out: &mut [u8], at: usize) -> usize
    requires room { Room out.old at (records_bytes (complement (net_of bounded.now.net.now.sheet.now))) }
    ensures { Puts out.old at (records_bytes (complement (net_of bounded.now.net.now.sheet.now))) out.new result }
{
    let at_modes = put_places(bounded, out, at);
    let at_pairs = put_modes(bounded.net, out, at_modes);
    put_pairs(bounded.net, out, at_pairs)
}

// Before the arcs stands their count where the version says it, which is known when they are put: version 1's have 16 bytes each.
fn put_counted_arcs(
    bounded: &Bounded,
    starts: &[u16; 257],
    dead: &[bool; 256],
    out: &mut [u8],
    at: usize,
) -> usize
    requires starts_are { StartsAre (net_of bounded.now.net.now.sheet.now).arcs starts.now }
    requires dead_are { DeadAre (net_of bounded.now.net.now.sheet.now) dead.now }
    requires room { Room out.old at (section_bytes bounded.now.net.now.shape.version (complement (net_of bounded.now.net.now.sheet.now))) }
    ensures { Puts out.old at (section_bytes bounded.now.net.now.shape.version (complement (net_of bounded.now.net.now.sheet.now))) out.new result }
{
    let start = at + total_size(bounded.net.shape.version);
    let end = put_arcs(bounded, starts, dead, out, start);
    put_total(out, at, bounded.net.shape.version, (end - start) / 16);
    end
}

// The head says how long the sheet is: it is put last.
pub(crate) fn put_sheet(
    bounded: &Bounded,
    starts: &[u16; 257],
    dead: &[bool; 256],
    most: Sizes,
    out: &mut [u8],
) -> usize
    requires starts_are { StartsAre (net_of bounded.now.net.now.sheet.now).arcs starts.now }
    requires dead_are { DeadAre (net_of bounded.now.net.now.sheet.now) dead.now }
    requires sizes_with { SizesWith (net_of bounded.now.net.now.sheet.now) (2 * bounded.now.net.now.shape.arcs) most × Few most }
    requires room { Room out.old 0 (sheet_of bounded.now.net.now.shape.version (complement (net_of bounded.now.net.now.sheet.now))) }
    ensures { Puts out.old 0 (sheet_of bounded.now.net.now.shape.version (complement (net_of bounded.now.net.now.sheet.now))) out.new result }
{
    let at_records = head_size(bounded.net.shape.version) + 4;
    let at_arcs = put_records(bounded, out, at_records);
    let end = put_counted_arcs(bounded, starts, dead, out, at_arcs);
    put_counts(bounded.net, most.places, end, out);
    end
}
