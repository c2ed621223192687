// The fleet statement: one ship after another into a running record that the caller lends (document 02, P13).
// What a ship adds to the record, and what is refused, is said in the crate `ships`.
mod bounds;
mod entry;
mod voyage;

ghost use Rattle.std.specs.Prelude.{◌≡◌};
ghost use Rattle.model.specs.First.{◌▸◌};
ghost use Rattle.model.specs.Nets.{pairs as pairs_of};
ghost use Rattle.sheets.specs.Whole.{whole_weights, whole_movements};
ghost use Rattle.sheets.specs.Decoded.{net_of};
ghost use Rattle.ships.specs.Ships.{ship};
ghost use Rattle.ships.specs.Entered.{InBounds, figure_refusal};
ghost use Rattle.statement.specs.fleet.Allowed.{AddShipAllows};
ghost use Rattle.statement.specs.fleet.Parts.{raised_by, raised};

use crate::fleet::bounds::{is_out_of_bounds, is_past};
use crate::fleet::entry::with_voyage;
use crate::fleet::voyage::voyage_of;
use model::{Answer, Fault, Refusal, Thing};
use opened::list::MovementList;
use opened::open::OpenNet;
use opened::open_net;
use sheets::whole::{whole_movements, whole_weights};
use ships::Fleet;

// Once the net is accepted: the weights, the movements, then 24.
fn count_open(
    found: Fleet,
    net: &OpenNet,
    weights: &[u8],
    movements: &[u8],
) -> Result<Fleet, Refusal>
    requires in_bounds { InBounds found }
    ensures { result ≡ raised_by (whole_weights (pairs_of (net_of net.now.sheet.now)) weights.now ▸ whole_movements movements.now ▸ figure_refusal found (ship net.now.sheet.now weights.now movements.now)) found (ship net.now.sheet.now weights.now movements.now) }
{
    whole_weights(weights, net.shape.pairs)?;
    whole_movements(movements)?;
    let list = MovementList { sheet: movements };
    let next = with_voyage(found, voyage_of(net, weights, &list));
    if is_past(next.added) || is_past(next.removed) {
        return Err(Refusal {
            thing: Thing::Net,
            fault: Fault::FigurePast,
        });
    }
    Ok(next)
}

// The update by value: 25 and 4 before any sheet is read.
pub(crate) fn count_ship(
    found: Fleet,
    net: &[u8],
    weights: &[u8],
    movements: &[u8],
) -> Result<Fleet, Refusal>
    ensures { result ≡ raised found (ship net.now weights.now movements.now) }
{
    if is_out_of_bounds(found) {
        return Err(Refusal {
            thing: Thing::Net,
            fault: Fault::RecordOutside,
        });
    }
    if 1000 < found.ships + 1 {
        return Err(Refusal {
            thing: Thing::Argument,
            fault: Fault::CountOutside(0),
        });
    }
    let net = open_net(net)?;
    count_open(found, &net, weights, movements)
}

// One ship more in the lent record, which a refusal leaves as found: the one thin function over it.
pub fn add_ship(lent: &mut Fleet, net: &[u8], weights: &[u8], movements: &[u8]) -> Answer
    ensures { AddShipAllows lent.old net.now weights.now movements.now (result, lent.new) }
{
    *lent = count_ship(*lent, net, weights, movements)?;
    Ok(())
}
