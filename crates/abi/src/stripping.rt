// A net with a transition that strips a pair bare.
ghost use Rattle.abi.specs.Allowed.{StripAllows};

use answers::Counted;
use convert::strip::strip;
use model::Pair;

pub fn pnet_strip(net: &[u8], pair: Pair, out: &mut [u8]) -> Counted
    ensures { StripAllows net.now pair out.old (result, out.new) }
{
    strip(net, pair, out).into()
}
