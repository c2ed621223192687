// One movement of a list: the arcs that it visits, and whether it is accepted.
ghost use Rattle.model.specs.declared.Thing.TheVariants.{Movements};
ghost use Rattle.model.specs.Markings.{Marking};
ghost use Rattle.model.specs.Firing.{mode_refusal, fired};
ghost use Rattle.sheets.specs.Decoded.{net_of};
ghost use Rattle.opened.specs.Starts.{StartsAre};
ghost use Rattle.leaving.specs.Leaving.{Makes};
ghost use Rattle.numbers.specs.Numbers.{Numbered};
ghost use Rattle.numbers.specs.Movement.{Tries};

use crate::fire_within;
use model::Mode;
use opened::open::OpenNet;
use opened::starts::{Segment, arcs_of};

// The arcs of a movement's mode, which it visits: none where the mode is not there.
pub fn tried_arcs(net: &OpenNet, starts: &[u16; 257], mode: Mode) -> Segment
    requires starts_are { StartsAre (net_of net.now.sheet.now).arcs starts.now }
    ensures { Tries (net_of net.now.sheet.now) mode result }
{
    if net.shape.modes <= mode.0 as usize {
        return Segment {
            mode,
            start: 0,
            count: 0,
        };
    }
    arcs_of(net, starts, mode)
}

// One movement: whether it was accepted.
pub fn try_movement(net: &OpenNet, numbers: &[u32], arcs: Segment, marking: &mut [u32]) -> bool
    requires numbered { Numbered net.now.sheet.now net.now.shape numbers.now }
    requires tries { Tries (net_of net.now.sheet.now) arcs.mode arcs }
    requires marking { Marking (net_of net.now.sheet.now) marking.old }
    ensures { Makes (mode_refusal Movements (net_of net.now.sheet.now) arcs.mode marking.old) (fired (net_of net.now.sheet.now) arcs.mode marking.old) marking.old result marking.new }
{
    (arcs.mode.0 as usize) < net.shape.modes && fire_within(net, numbers, arcs, marking)
}
