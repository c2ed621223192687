// What complementing refuses, then 17 for the marking, then 17 for the complement's marking.
ghost use Rattle.std.specs.Prelude.{◌≡◌};
ghost use Rattle.model.specs.First.{◌▸◌};
ghost use Rattle.model.specs.Nets.{pairs};
ghost use Rattle.model.specs.Refusals.{answer};
ghost use Rattle.model.specs.Markings.{unequal};
ghost use Rattle.second_form.specs.Complement.{complement};
ghost use Rattle.both_forms.specs.Audit.{audit_refusal};
ghost use Rattle.sheets.specs.Decoded.{net_of};
ghost use Rattle.opened.specs.Shape.{arc_offset};

use crate::check::check_net;
use crate::sections::bounded::{Bounded, bounded_between};
use heads::head::refused;
use model::{Answer, Fault, Thing};

// How many pairs the complement has.
fn pairs_beside(bounded: &Bounded) -> usize
    ensures { result ≡ pairs (complement (net_of bounded.now.net.now.sheet.now)) }
{
    bounded.net.shape.pairs + bounded_between(bounded, 0, bounded.net.shape.pairs)
}

fn markings_answer(bounded: &Bounded, marking: &[u32], beside: &[u32]) -> Answer
    ensures { result ≡ answer (unequal (net_of bounded.now.net.now.sheet.now) marking.now ▸ unequal (complement (net_of bounded.now.net.now.sheet.now)) beside.now) }
{
    if marking.len() != bounded.net.shape.pairs || beside.len() != pairs_beside(bounded) {
        return refused(Thing::Argument, Fault::NotOneEach(0));
    }
    Ok(())
}

pub(crate) fn audit_answer(bounded: &Bounded, marking: &[u32], beside: &[u32]) -> Answer
    ensures { result ≡ answer (audit_refusal (net_of bounded.now.net.now.sheet.now) marking.now beside.now (arc_offset bounded.now.net.now.sheet.now)) }
{
    check_net(bounded)?;
    markings_answer(bounded, marking, beside)
}
