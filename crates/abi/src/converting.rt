// A net's sheet in the other version.
ghost use Rattle.abi.specs.Allowed.{ToVersion1Allows, ToVersion2Allows};

use answers::Counted;
use convert::{to_version_1, to_version_2};

pub fn pnet_to_version_2(net: &[u8], out: &mut [u8]) -> Counted
    ensures { ToVersion2Allows net.now out.old (result, out.new) }
{
    to_version_2(net, out).into()
}

pub fn pnet_to_version_1(net: &[u8], out: &mut [u8]) -> Counted
    ensures { ToVersion1Allows net.now out.old (result, out.new) }
{
    to_version_1(net, out).into()
}
