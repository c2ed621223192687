// The complement of a net.
ghost use Rattle.abi.specs.Allowed.{ComplementAllows};

use answers::Counted;

#[unsafe(no_mangle)]
pub extern "C" fn pnet_complement(net: &[u8], out: &mut [u8]) -> Counted
    ensures { ComplementAllows net.now out.old (result, out.new) }
{
    abi::complementing::pnet_complement(net, out)
}
