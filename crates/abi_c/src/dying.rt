// Locally dead modes.
ghost use Rattle.abi.specs.Allowed.{IsDeadAllows, FirstDeadAllows};

use answers::{Decided, Named};
use model::Mode;

#[unsafe(no_mangle)]
pub extern "C" fn pnet_is_dead(net: &[u8], mode: Mode) -> Decided
    ensures { IsDeadAllows net.now mode result }
{
    abi::dying::pnet_is_dead(net, mode)
}

#[unsafe(no_mangle)]
pub extern "C" fn pnet_first_dead(net: &[u8]) -> Named
    ensures { FirstDeadAllows net.now result }
{
    abi::dying::pnet_first_dead(net)
}
