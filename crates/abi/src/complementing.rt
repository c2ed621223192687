// The complement of a net.
ghost use Rattle.abi.specs.Allowed.{ComplementAllows};

use answers::Counted;
use complement::complement;

pub fn pnet_complement(net: &[u8], out: &mut [u8]) -> Counted
    ensures { ComplementAllows net.now out.old (result, out.new) }
{
    complement(net, out).into()
}
