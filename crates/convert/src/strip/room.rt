// "6 for the pair, 15 for unbounded K, 10 where K is above 63, another limit is passed or the output is short."
ghost use Rattle.std.specs.Prelude.{◌≡◌, ◌≤◌};
ghost use Rattle.model.specs.Refusals.{answer};
ghost use Rattle.convert.specs.strip.Stripped.{room_refusal};
ghost use Rattle.convert.specs.strip.Parts.{in_limits, Numbers, new_size, sizes_refusal};

use heads::head::refused;
use model::{Answer, Fault, Pair, Thing};
use opened::finite::is_finite;
use opened::open::OpenNet;
use opened::shape::{NetShape, capacity};
use sheets::written::sheet_size;

// A transition has at most 64 modes; the others are the limits of a net sheet.
fn within_limits(net: NetShape, k: usize) -> bool
    requires { (net.transitions ≤ 64) × (net.modes ≤ 256) × (net.arcs ≤ 2048) }
    ensures { result ≡ in_limits net k }
{
    k <= 63 && net.transitions + 1 <= 64 && net.modes + (k + 1) <= 256 && net.arcs + (k + 1) <= 2048
}

// How long the sheet with K + 1 modes more is.
pub(crate) fn new_size(net: NetShape, k: usize) -> usize
    requires { Numbers net k }
    ensures { result ≡ new_size net k }
{
    sheet_size(
        net.version,
        net.places,
        net.transitions + 1,
        net.pairs,
        net.modes + (k + 1),
        net.arcs + (k + 1),
    )
}

fn room_answer(net: NetShape, k: usize, room: usize) -> Answer
    requires places_bound { (net.places ≤ 64) × (net.pairs ≤ 256) }
    requires transitions_bound { (net.transitions ≤ 64) × (net.modes ≤ 256) × (net.arcs ≤ 2048) }
    ensures { result ≡ answer (sizes_refusal net k room) }
{
    if !within_limits(net, k) || room < new_size(net, k) {
        return refused(Thing::Net, Fault::NoRoom);
    }
    Ok(())
}

pub(crate) fn strip_answer(net: &OpenNet, pair: Pair, room: usize) -> Answer
    ensures { result ≡ answer (room_refusal net.now.sheet.now pair room) }
{
    if net.shape.pairs <= pair.0 as usize {
        return refused(Thing::Argument, Fault::NotThere);
    }
    let k = capacity(net, pair);
    if !is_finite(k) {
        return refused(Thing::Net, Fault::InhibitedUnbounded(0));
    }
    room_answer(net.shape, k as usize, room)
}
