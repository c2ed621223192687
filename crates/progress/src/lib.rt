// How far a list of movements comes: mode by mode, up to the first that is refused.
#![tactic(auto)]

ghost use Rattle.std.specs.Prelude.{◌≤◌};
ghost use Rattle.model.specs.Markings.{Marking};
ghost use Rattle.sheets.specs.Decoded.{net_of};
ghost use Rattle.sheets.specs.lists.Movements.{most_movements};
ghost use Rattle.sheets.specs.Listed.{modes_from, ModesStand};
ghost use Rattle.progress.specs.Progress.{Tables, Accepts};

use numbers::trying::{tried_arcs, try_movement};
use opened::listed::mode_at;
use opened::open::OpenNet;

// How far a run has come: the movements accepted, and the arcs visited, those of a refused movement too.
#[derive(Clone, Copy)]
pub struct Progress {
    pub accepted: usize,
    pub visited: usize,
}

// How many movements are accepted, up to the first that is refused: which refusal it is, is looked for once, after the loop.
// The sum of at most 8,192 movements of at most 2,048 arcs does not wrap.
pub fn count_accepted(
    net: &OpenNet,
    starts: &[u16; 257],
    numbers: &[u32],
    movements: &[u8],
    start: usize,
    count: usize,
    marking: &mut [u32],
) -> Progress
    requires tables { Tables net.now.sheet.now net.now.shape starts.now numbers.now }
    requires modes_stand { ModesStand movements.now start count }
    requires count_le_most_movements { count ≤ most_movements }
    requires marking { Marking (net_of net.now.sheet.now) marking.old }
    ensures { Accepts (net_of net.now.sheet.now) (modes_from movements.now start count) marking.old result marking.new }
{
    let mut visited = 0;
    for k in 0..count {
        let arcs = tried_arcs(net, starts, mode_at(movements, start, k));
        visited += arcs.count;
        if !try_movement(net, numbers, arcs, marking) {
            return Progress {
                accepted: k,
                visited,
            };
        }
    }
    Progress {
        accepted: count,
        visited,
    }
}
