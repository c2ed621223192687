// How large a net is.
ghost use Rattle.abi.specs.Allowed.{SizeAllows};

use answers::Sized;

#[unsafe(no_mangle)]
pub extern "C" fn pnet_size(net: &[u8]) -> Sized
    ensures { SizeAllows net.now result }
{
    abi::sizing::pnet_size(net)
}
