// A list of movements run up to the first that is refused, and why that one is.
ghost use Rattle.std.specs.Prelude.{◌≡◌, ◌≤◌};
ghost use Rattle.std.proofs.Math.Option.{none};
ghost use Rattle.model.specs.declared.Thing.TheVariants.{Movements};
ghost use Rattle.model.specs.Refusals.{answer};
ghost use Rattle.model.specs.Markings.{Marking};
ghost use Rattle.model.specs.Firing.{mode_refusal};
ghost use Rattle.movement.specs.Runs.{run};
ghost use Rattle.both_forms.specs.Visits.{visited};
ghost use Rattle.sheets.specs.Decoded.{net_of, movements_of};
ghost use Rattle.sheets.specs.lists.Movements.{most_movements};
ghost use Rattle.opened.specs.Starts.{StartsAre};
ghost use Rattle.sheets.specs.Listed.{modes_from, ModesStand};
ghost use Rattle.progress.specs.Progress.{Tables};
ghost use Rattle.run.specs.Parts.{Reports};

use crate::Ran;
use fire::advance::mode_answer;
use fire::firing::mode::find_refusal;
use model::{Answer, Mode, Thing};
use numbers::write_numbers;
use opened::list::MovementList;
use opened::listed::{mode_at, movements_at};
use opened::open::OpenNet;
use opened::starts::{arcs_of, starts};
use progress::count_accepted;
use sheets::lists::movements::movement_count;

// Why a movement is refused.
fn refusal_of(net: &OpenNet, starts: &[u16; 257], mode: Mode, marking: &[u32]) -> Answer
    requires starts_are { StartsAre (net_of net.now.sheet.now).arcs starts.now }
    requires marking { Marking (net_of net.now.sheet.now) marking.now }
    ensures { result ≡ answer (mode_refusal Movements (net_of net.now.sheet.now) mode marking.now) }
{
    mode_answer(net.shape, Thing::Movements, mode)?;
    let arcs = arcs_of(net, starts, mode);
    find_refusal(net, arcs, Thing::Movements, marking)
}

// The inner part of a run: `count` mode numbers that stand in a run of bytes from `start` on.
pub(crate) fn run_modes(
    net: &OpenNet,
    starts: &[u16; 257],
    numbers: &[u32],
    movements: &[u8],
    start: usize,
    count: usize,
    marking: &mut [u32],
) -> Ran
    requires tables { Tables net.now.sheet.now net.now.shape starts.now numbers.now }
    requires modes_stand { ModesStand movements.now start count }
    requires count_le_most_movements { count ≤ most_movements }
    requires marking { Marking (net_of net.now.sheet.now) marking.old }
    ensures { Reports (run (net_of net.now.sheet.now) (modes_from movements.now start count) marking.old) (visited (net_of net.now.sheet.now) (modes_from movements.now start count) marking.old) result marking.new }
{
    let done = count_accepted(net, starts, numbers, movements, start, count, marking);
    let answer = if done.accepted < count {
        refusal_of(
            net,
            starts,
            mode_at(movements, start, done.accepted),
            marking,
        )
    } else {
        Ok(())
    };
    Ran {
        accepted: done.accepted,
        visited: done.visited,
        answer,
    }
}

// The list of a movement sheet that was accepted, with both tables lent.
pub fn run_listed(
    net: &OpenNet,
    starts: &[u16; 257],
    numbers: &[u32],
    movements: &MovementList,
    marking: &mut [u32],
) -> Ran
    requires tables { Tables net.now.sheet.now net.now.shape starts.now numbers.now }
    requires marking { Marking (net_of net.now.sheet.now) marking.old }
    ensures { Reports (run (net_of net.now.sheet.now) (movements_of movements.now.sheet.now) marking.old) (visited (net_of net.now.sheet.now) (movements_of movements.now.sheet.now) marking.old) result marking.new }
{
    let count = movement_count(movements.sheet);
    run_modes(
        net,
        starts,
        numbers,
        movements.sheet,
        movements_at(),
        count,
        marking,
    )
}

// The same with both tables made once.
pub(crate) fn run_sheet(net: &OpenNet, movements: &MovementList, marking: &mut [u32]) -> Ran
    requires marking { Marking (net_of net.now.sheet.now) marking.old }
    ensures { Reports (run (net_of net.now.sheet.now) (movements_of movements.now.sheet.now) marking.old) (visited (net_of net.now.sheet.now) (movements_of movements.now.sheet.now) marking.old) result marking.new }
{
    let starts = starts(net);
    let mut numbers = [0u32; 2048];
    write_numbers(net, &starts, &mut numbers);
    run_listed(net, &starts, &numbers, movements, marking)
}
