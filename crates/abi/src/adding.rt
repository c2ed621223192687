// One ship more in a fleet's record, which the caller lends.
ghost use Rattle.abi.specs.Allowed.{FleetAddAllows};

use answers::Answered;
use ships::Fleet;
use statement::fleet::add_ship;

pub fn pnet_fleet_add(lent: &mut Fleet, net: &[u8], weights: &[u8], movements: &[u8]) -> Answered
    ensures { FleetAddAllows lent.old net.now weights.now movements.now (result, lent.new) }
{
    add_ship(lent, net, weights, movements).into()
}
