// What can be kept of a damaged movement sheet.
ghost use Rattle.abi.specs.Allowed.{SalvageAllows};

use answers::Reported;
use run::salvage::salvage;

pub fn pnet_salvage(net: &[u8], damaged: &[u8], out: &mut [u8]) -> Reported
    ensures { SalvageAllows net.now damaged.now out.old (result, out.new) }
{
    salvage(net, damaged, out).into()
}
