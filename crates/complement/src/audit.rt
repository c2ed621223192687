// Audit (ours): a net's marking beside its complement's. A token left behind puts a pair out of step, and the lowest such pair is named with its excess.
mod excess;
mod refusals;

ghost use Rattle.std.specs.Prelude.{◌≡◌};
ghost use Rattle.both_forms.specs.Audit.{audited, audit_refusal};
ghost use Rattle.sheets.specs.Decoded.{net_of};
ghost use Rattle.opened.specs.Shape.{arc_offset};
ghost use Rattle.complement.specs.audit.Audits.{finds, found};
ghost use Rattle.complement.specs.audit.Parts.{OneEach};
ghost use Rattle.complement.specs.audit.Allowed.{AuditAllows};

use crate::audit::excess::pair_excess;
use crate::audit::refusals::audit_answer;
use crate::sections::bounded::{Bounded, bounded_below};
use model::{Pair, Refusal};
use opened::open_net;

// An excess is 0 exactly where a pair is in step.
fn find(bounded: &Bounded, marking: &[u32], beside: &[u32]) -> Option<(Pair, i64)>
    requires one_each { OneEach (net_of bounded.now.net.now.sheet.now) marking.now beside.now }
    ensures { result ≡ found (audited (net_of bounded.now.net.now.sheet.now) marking.now beside.now) }
{
    for p in 0..bounded.net.shape.pairs {
        let excess = pair_excess(bounded, marking, beside, p);
        if excess != 0 {
            return Some((Pair(p as u16), excess));
        }
    }
    None
}

fn audit_open(
    bounded: &Bounded,
    marking: &[u32],
    beside: &[u32],
) -> Result<Option<(Pair, i64)>, Refusal>
    ensures { result ≡ finds (audit_refusal (net_of bounded.now.net.now.sheet.now) marking.now beside.now (arc_offset bounded.now.net.now.sheet.now)) (audited (net_of bounded.now.net.now.sheet.now) marking.now beside.now) }
{
    audit_answer(bounded, marking, beside)?;
    Ok(find(bounded, marking, beside))
}

pub fn audit(net: &[u8], marking: &[u32], beside: &[u32]) -> Result<Option<(Pair, i64)>, Refusal>
    ensures { AuditAllows net.now marking.now beside.now result }
{
    let net = open_net(net)?;
    audit_open(&bounded_below(&net), marking, beside)
}
