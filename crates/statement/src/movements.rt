// The movements of a list: run whole, then told, a line each, up to the first that is refused, and `end`.
ghost use Rattle.std.specs.Prelude.{◌≡◌, ◌++◌, ◌+◌, ◌*◌, ◌≤◌, ◌<◌, length, get_or};
ghost use Rattle.std.proofs.Math.Option.{none};
ghost use Rattle.model.specs.Nets.{mode_no};
ghost use Rattle.model.specs.Markings.{Marking};
ghost use Rattle.movement.specs.Figures.{figure as figure_at};
ghost use Rattle.movement.specs.Runs.{run};
ghost use Rattle.sheets.specs.Decoded.{net_of, weights_of, movements_of};
ghost use Rattle.opened.specs.Starts.{StartsAre};
ghost use Rattle.writes.specs.Writes.{Writes};
ghost use Rattle.statement.specs.lines.Lines.{refused_line, end_line};
ghost use Rattle.opened.specs.Read.{Read};
ghost use Rattle.run.specs.Parts.{RunTells};
ghost use Rattle.statement.specs.Replay.{lines_from};

use crate::lines::{put_accepted, put_end, put_refused};
use crate::weigh::changes::write_changes;
use model::{Answer, Refusal};
use numbers::write_numbers;
use opened::list::MovementList;
use opened::listed::movement;
use opened::open::OpenNet;
use run::Ran;
use run::movements::run_listed;
use text::twos::Twos;

// The numbers of the arcs (8 KiB) stand on the stack only while the list runs: the table of changes comes after them, in another function.
// `fleet::voyage::run_list` is the same: one caller each, so that both are inlined there (docs/SPEED.md, 9), and one function for the two would be called.
pub(crate) fn run_list(
    net: &OpenNet,
    starts: &[u16; 257],
    movements: &MovementList,
    marking: &mut [u32],
) -> Ran
    requires starts_are { StartsAre (net_of net.now.sheet.now).arcs starts.now }
    requires marking { Marking (net_of net.now.sheet.now) marking.old }
    ensures { RunTells (run (net_of net.now.sheet.now) (movements_of movements.now.sheet.now) marking.old) result.accepted result.answer }
{
    let mut numbers = [0u32; 2048];
    write_numbers(net, starts, &mut numbers);
    run_listed(net, starts, &numbers, movements, marking)
}

// A refused movement is the last: "Running stops at the first refused movement".
fn put_stop(
    movements: &MovementList,
    accepted: usize,
    refusal: Refusal,
    out: &mut [u8],
    at: usize,
    figure: i64,
) -> usize
    requires accepted_in_bounds { accepted < length (movements_of movements.now.sheet.now) }
    requires at_in_bounds { at + 159 ≤ length out.old }
    ensures { Writes 159 out.old at (refused_line (accepted + 1) (get_or (movements_of movements.now.sheet.now) accepted (mode_no 0)) refusal ++ end_line accepted figure) result out.new }
{
    let mode = movement(movements, accepted);
    let line = put_refused(out, at, accepted as u64 + 1, mode, refusal);
    put_end(out, line, accepted as u64, figure)
}

// The figure after an accepted movement is the figure before it and its mode's weight change: every sum is a figure, so it is exact.
pub(crate) fn put_movements(
    net: &OpenNet,
    starts: &[u16; 257],
    weights: &[u8],
    movements: &MovementList,
    accepted: usize,
    answer: Answer,
    out: &mut [u8],
    at: usize,
    first: i64,
) -> usize
    requires read { Read net.now.sheet.now net.now.shape weights.now movements.now.sheet.now }
    requires starts_are { StartsAre (net_of net.now.sheet.now).arcs starts.now }
    requires run_tells { RunTells (run (net_of net.now.sheet.now) (movements_of movements.now.sheet.now) (net_of net.now.sheet.now).start) accepted answer }
    requires first_value { first ≡ figure_at (net_of net.now.sheet.now) (weights_of weights.now) (net_of net.now.sheet.now).start }
    requires at_in_bounds { at + (28 * 8192 + 159) ≤ length out.old }
    ensures { Writes (28 * 8192 + 159) out.old at (lines_from (net_of net.now.sheet.now) (weights_of weights.now) 0 (movements_of movements.now.sheet.now) (net_of net.now.sheet.now).start) result out.new }
{
    let twos = Twos::new();
    let mut changes = [0i64; 256];
    write_changes(net, starts, weights, &mut changes);
    let mut end = at;
    let mut figure = first;
    for k in 0..accepted {
        let mode = movement(movements, k);
        figure += changes[mode.0 as usize];
        end = put_accepted(&twos, out, end, k as u64 + 1, mode, figure);
    }
    if let Err(refusal) = answer {
        return put_stop(movements, accepted, refusal, out, end, figure);
    }
    put_end(out, end, accepted as u64, figure)
}
