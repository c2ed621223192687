// What complementing refuses of an open net whatever the output slice, for calls that write no complement.
ghost use Rattle.std.specs.Prelude.{◌≡◌};
ghost use Rattle.second_form.specs.Complement.{complement_refusal};
ghost use Rattle.model.specs.Refusals.{answer};
ghost use Rattle.sheets.specs.Decoded.{net_of};
ghost use Rattle.opened.specs.Shape.{arc_offset};

use crate::room::complement_answer;
use crate::sections::bounded::Bounded;
use crate::sections::survey::survey;
use crate::sheet::complement_sizes;
use model::Answer;
use opened::starts::starts;

// A room of 100,000 bytes is short for none: twice what a sheet may hold is less.
pub(crate) fn check_net(bounded: &Bounded) -> Answer
    ensures { result ≡ answer (complement_refusal (arc_offset bounded.now.net.now.sheet.now) (net_of bounded.now.net.now.sheet.now)) }
{
    let starts = starts(bounded.net);
    let mut dead = [false; 256];
    let clear = survey(bounded.net, &starts, &mut dead);
    let most = complement_sizes(bounded, 2 * bounded.net.shape.arcs);
    complement_answer(bounded, &starts, &dead, clear, most, 100_000)
}
