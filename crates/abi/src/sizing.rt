// How large a net is.
ghost use Rattle.abi.specs.Allowed.{SizeAllows};

use answers::Sized;
use opened::size::size;

pub fn pnet_size(net: &[u8]) -> Sized
    ensures { SizeAllows net.now result }
{
    size(net).into()
}
