// The modes of a step: 4 for none or more than 64 of them, then 6 for any that is not there.
ghost use Rattle.std.specs.Prelude.{◌≡◌, length};
ghost use Rattle.model.specs.First.{first};
ghost use Rattle.model.specs.Refusals.{answer};
ghost use Rattle.fire.specs.step.Parts.{member_absent, members_refusal};

use crate::advance::mode_answer;
use heads::head::refused;
use model::{Answer, Fault, Mode, Thing};
use opened::shape::NetShape;

fn each_member(net: NetShape, modes: &[u16]) -> Answer
    ensures { result ≡ answer (first (length modes.now) (member_absent net.modes modes.now)) }
{
    for mode in modes {
        mode_answer(net, Thing::Argument, Mode(*mode))?;
    }
    Ok(())
}

pub(crate) fn members_answer(net: NetShape, modes: &[u16]) -> Answer
    ensures { result ≡ answer (members_refusal net.modes modes.now) }
{
    if modes.is_empty() || 64 < modes.len() {
        return refused(Thing::Argument, Fault::CountOutside(0));
    }
    each_member(net, modes)
}
