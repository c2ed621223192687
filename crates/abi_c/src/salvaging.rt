// What can be kept of a damaged movement sheet.
ghost use Rattle.abi.specs.Allowed.{SalvageAllows};

use answers::Reported;

#[unsafe(no_mangle)]
pub extern "C" fn pnet_salvage(net: &[u8], damaged: &[u8], out: &mut [u8]) -> Reported
    ensures { SalvageAllows net.now damaged.now out.old (result, out.new) }
{
    abi::salvaging::pnet_salvage(net, damaged, out)
}
