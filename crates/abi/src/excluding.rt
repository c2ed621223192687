// Weights that show a marking to be out of reach.
ghost use Rattle.abi.specs.Allowed.{ExcludeAllows};

use answers::Answered;
use statement::exclude::exclude;

pub fn pnet_exclude(net: &[u8], weights: &[u8], claim: &[u32]) -> Answered
    ensures { ExcludeAllows net.now weights.now claim.now result }
{
    exclude(net, weights, claim).into()
}
