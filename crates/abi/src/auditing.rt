// An audit of a net's marking beside its complement's.
ghost use Rattle.abi.specs.Allowed.{AuditAllows};

use answers::Audited;
use complement::audit::audit;

pub fn pnet_audit(net: &[u8], marking: &[u32], beside: &[u32]) -> Audited
    ensures { AuditAllows net.now marking.now beside.now result }
{
    audit(net, marking, beside).into()
}
