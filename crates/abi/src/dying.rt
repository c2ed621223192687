// Locally dead modes.
ghost use Rattle.abi.specs.Allowed.{IsDeadAllows, FirstDeadAllows};

use answers::{Decided, Named};
use model::Mode;
use opened::dead::{first_dead, is_dead};

pub fn pnet_is_dead(net: &[u8], mode: Mode) -> Decided
    ensures { IsDeadAllows net.now mode result }
{
    is_dead(net, mode).into()
}

pub fn pnet_first_dead(net: &[u8]) -> Named
    ensures { FirstDeadAllows net.now result }
{
    first_dead(net).into()
}
