// One ship's run from its first marking, and the kilograms that its accepted movements add and remove.
ghost use Rattle.std.specs.Prelude.{◌≡◌, ◌≤◌, pos, nat_abs, length};
ghost use Rattle.std.proofs.Math.Option.{none};
ghost use Rattle.model.specs.Markings.{Marking};
ghost use Rattle.movement.specs.Runs.{run};
ghost use Rattle.sheets.specs.Decoded.{net_of, movements_of};
ghost use Rattle.opened.specs.Read.{Read};
ghost use Rattle.opened.specs.Starts.{StartsAre};
ghost use Rattle.run.specs.Parts.{RunTells};
ghost use Rattle.ships.specs.Ships.{ship, gained as gained_by, lost as lost_by, voyage_of};
ghost use Rattle.statement.specs.fleet.Parts.{heaviest_mode, Light};

use crate::weigh::changes::write_changes;
use fire::start::write_start;
use model::Answer;
use numbers::write_numbers;
use opened::list::MovementList;
use opened::listed::movement;
use opened::open::OpenNet;
use opened::starts::starts;
use run::Ran;
use run::movements::run_listed;
use ships::Voyage;

// "the sizes of positive and of negative weight changes"
fn gained(change: i64) -> i64
    ensures { result ≡ pos (gained_by change) }
{
    change.max(0)
}

fn lost(change: i64) -> i64
    requires { nat_abs change ≤ heaviest_mode }
    ensures { result ≡ pos (lost_by change) }
{
    (-change).max(0)
}

// The numbers of the arcs (8 KiB) stand on the stack only while the list runs, where the table of changes comes after. `movements::run_list` is the same: one
// caller each, so that both are inlined there (docs/SPEED.md, 9), and one function for the two would be called.
fn run_list(
    net: &OpenNet,
    starts: &[u16; 257],
    movements: &MovementList,
    marking: &mut [u32],
) -> Ran
    requires starts_are { StartsAre (net_of net.now.sheet.now).arcs starts.now }
    requires marking { Marking (net_of net.now.sheet.now) marking.old }
    ensures { RunTells (run (net_of net.now.sheet.now) (movements_of movements.now.sheet.now) marking.old) result.accepted result.answer }
{
    let mut numbers = [0u32; 2048];
    write_numbers(net, starts, &mut numbers);
    run_listed(net, starts, &numbers, movements, marking)
}

// The list has been run: what its accepted movements changed is added up, by the table of all modes' changes.
fn weigh_run(
    net: &OpenNet,
    starts: &[u16; 257],
    weights: &[u8],
    movements: &MovementList,
    accepted: usize,
    answer: Answer,
) -> Voyage
    requires read { Read net.now.sheet.now net.now.shape weights.now movements.now.sheet.now }
    requires starts_are { StartsAre (net_of net.now.sheet.now).arcs starts.now }
    requires run_tells { RunTells (run (net_of net.now.sheet.now) (movements_of movements.now.sheet.now) (net_of net.now.sheet.now).start) accepted answer }
    ensures { (result ≡ voyage_of (ship net.now.sheet.now weights.now movements.now.sheet.now)) × Light result }
{
    let mut changes = [0i64; 256];
    write_changes(net, starts, weights, &mut changes);
    let mut added: i64 = 0;
    let mut removed: i64 = 0;
    for k in 0..accepted {
        let mode = movement(movements, k);
        let change = changes[mode.0 as usize];
        added += gained(change);
        removed += lost(change);
    }
    Voyage {
        accepted,
        answer,
        added,
        removed,
    }
}

fn sail(net: &OpenNet, weights: &[u8], movements: &MovementList, marking: &mut [u32]) -> Voyage
    requires read { Read net.now.sheet.now net.now.shape weights.now movements.now.sheet.now }
    requires marking_len { length marking.old ≡ net.now.shape.pairs }
    ensures { (result ≡ voyage_of (ship net.now.sheet.now weights.now movements.now.sheet.now)) × Light result }
{
    write_start(net, marking);
    let starts = starts(net);
    let ran = run_list(net, &starts, movements, marking);
    weigh_run(net, &starts, weights, movements, ran.accepted, ran.answer)
}

// "a private working marking of 256 counts", filled from the ship's net.
pub(crate) fn voyage_of(net: &OpenNet, weights: &[u8], movements: &MovementList) -> Voyage
    requires { Read net.now.sheet.now net.now.shape weights.now movements.now.sheet.now }
    ensures { (result ≡ voyage_of (ship net.now.sheet.now weights.now movements.now.sheet.now)) × Light result }
{
    let mut counts = [0u32; 256];
    sail(net, weights, movements, &mut counts[..net.shape.pairs])
}
