// A net with a transition that strips a pair bare.
ghost use Rattle.abi.specs.Allowed.{StripAllows};

use answers::Counted;
use model::Pair;

#[unsafe(no_mangle)]
pub extern "C" fn pnet_strip(net: &[u8], pair: Pair, out: &mut [u8]) -> Counted
    ensures { StripAllows net.now pair out.old (result, out.new) }
{
    abi::stripping::pnet_strip(net, pair, out)
}
