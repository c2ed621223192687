// A net's sheet in the other version.
ghost use Rattle.abi.specs.Allowed.{ToVersion1Allows, ToVersion2Allows};

use answers::Counted;

#[unsafe(no_mangle)]
pub extern "C" fn pnet_to_version_2(net: &[u8], out: &mut [u8]) -> Counted
    ensures { ToVersion2Allows net.now out.old (result, out.new) }
{
    abi::converting::pnet_to_version_2(net, out)
}

#[unsafe(no_mangle)]
pub extern "C" fn pnet_to_version_1(net: &[u8], out: &mut [u8]) -> Counted
    ensures { ToVersion1Allows net.now out.old (result, out.new) }
{
    abi::converting::pnet_to_version_1(net, out)
}
