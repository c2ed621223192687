// Refusal 10, after 15.
ghost use Rattle.std.specs.Prelude.{◌≡◌, ◌*◌, ◌≤◌, length};
ghost use Rattle.model.specs.Refusals.{answer};
ghost use Rattle.sheets.specs.Decoded.{net_of};
ghost use Rattle.opened.specs.Starts.{StartsAre};
ghost use Rattle.complement.specs.sections.Arcs.{clear_at, every};
ghost use Rattle.complement.specs.sections.DeadModes.{DeadAre};
ghost use Rattle.complement.specs.Complemented.{room_refusal};
ghost use Rattle.complement.specs.Sizes.{sizes_of, SizesWith, Few, in_limits, sizes_refusal};

use crate::refusals::arcs_answer;
use crate::sections::bounded::Bounded;
use crate::sections::survey::count_arcs;
use crate::sheet::Sizes;
use heads::head::refused;
use model::{Answer, Fault, Refusal, Thing};
use opened::shape::NetShape;
use sheets::written::sheet_size;

// "complement exceeds the sheet's limits"
fn within_limits(sizes: Sizes) -> bool
    ensures { result ≡ in_limits sizes }
{
    sizes.places <= 64 && sizes.pairs <= 256 && sizes.arcs <= 2048
}

// "or the output slice is shorter than it"
fn room_answer(net: NetShape, sizes: Sizes, room: usize) -> Answer
    requires few { Few sizes }
    requires transitions_bound { (net.transitions ≤ 64) × (net.modes ≤ 256) }
    ensures { result ≡ answer (sizes_refusal net sizes room) }
{
    if !within_limits(sizes) {
        return refused(Thing::Net, Fault::NoRoom);
    }
    let size = sheet_size(
        net.version,
        sizes.places,
        net.transitions,
        sizes.pairs,
        net.modes,
        sizes.arcs,
    );
    if room < size {
        return refused(Thing::Net, Fault::NoRoom);
    }
    Ok(())
}

// The arcs are counted only where twice as many as the net has would not fit.
fn counted_answer(
    bounded: &Bounded,
    starts: &[u16; 257],
    dead: &[bool; 256],
    most: Sizes,
    room: usize,
) -> Answer
    requires starts_are { StartsAre (net_of bounded.now.net.now.sheet.now).arcs starts.now }
    requires dead_are { DeadAre (net_of bounded.now.net.now.sheet.now) dead.now }
    requires sizes_with { SizesWith (net_of bounded.now.net.now.sheet.now) (2 * bounded.now.net.now.shape.arcs) most × Few most }
    ensures { result ≡ answer (sizes_refusal bounded.now.net.now.shape (sizes_of (net_of bounded.now.net.now.sheet.now)) room) }
{
    if room_answer(bounded.net.shape, most, room).is_ok() {
        return Ok(());
    }
    let sizes = Sizes {
        arcs: count_arcs(bounded, starts, dead),
        ..most
    };
    room_answer(bounded.net.shape, sizes, room)
}

pub(crate) fn complement_answer(
    bounded: &Bounded,
    starts: &[u16; 257],
    dead: &[bool; 256],
    clear: bool,
    most: Sizes,
    room: usize,
) -> Answer
    requires starts_are { StartsAre (net_of bounded.now.net.now.sheet.now).arcs starts.now }
    requires dead_are { DeadAre (net_of bounded.now.net.now.sheet.now) dead.now }
    requires clear_value { clear ≡ every (length (net_of bounded.now.net.now.sheet.now).arcs) (clear_at (net_of bounded.now.net.now.sheet.now)) }
    requires sizes_with { SizesWith (net_of bounded.now.net.now.sheet.now) (2 * bounded.now.net.now.shape.arcs) most × Few most }
    ensures { result ≡ answer (room_refusal bounded.now.net.now.sheet.now room) }
{
    if !clear {
        arcs_answer(bounded.net, starts)?;
    }
    counted_answer(bounded, starts, dead, most, room)
}
