// The three sheets of an input, each read in the part after the one before it: "A bad sheet prints only `bad`".
ghost use Rattle.std.specs.Prelude.{◌≡◌, ◌≤◌, length};
ghost use Rattle.std.proofs.Math.Option.{none};
ghost use Rattle.model.specs.Refusals.{answer};
ghost use Rattle.sheets.specs.lists.Weights.{weights_refusal};
ghost use Rattle.writes.specs.Writes.{Writes};
ghost use Rattle.sheets.specs.Decoded.{net_of, weights_of, movements_of};
ghost use Rattle.opened.specs.Read.{Read};
ghost use Rattle.statement.specs.Replay.{run_text, movements_text, weights_text, sheets_text, room};

use crate::lines::{put_bad, put_start};
use crate::movements::{put_movements, run_list};
use crate::weigh::sums::figure_of;
use fire::start::write_start;
use opened::list::MovementList;
use opened::open::OpenNet;
use opened::shape::shape_of;
use opened::starts::starts;
use sheets::lists::weights::read_weights;
use sheets::nets::net::read_net;
use sheets::whole::{after, whole_movements};

// The net's first marking and its figure; then the whole list is run, and told.
fn put_run(
    net: &OpenNet,
    weights: &[u8],
    movements: &MovementList,
    marking: &mut [u32],
    out: &mut [u8],
) -> usize
    requires read { Read net.now.sheet.now net.now.shape weights.now movements.now.sheet.now }
    requires marking_len { length marking.old ≡ net.now.shape.pairs }
    requires room_in_bounds { room ≤ length out.old }
    ensures { Writes room out.old 0 (run_text (net_of net.now.sheet.now) (weights_of weights.now) (movements_of movements.now.sheet.now)) result out.new }
{
    write_start(net, marking);
    let figure = figure_of(net, weights, marking);
    let start = put_start(out, 0, figure);
    let starts = starts(net);
    let ran = run_list(net, &starts, movements, marking);
    put_movements(
        net,
        &starts,
        weights,
        movements,
        ran.accepted,
        ran.answer,
        out,
        start,
        figure,
    )
}

// "Bytes after the third sheet count as movements".
fn put_movement_sheet(net: &OpenNet, weights: &[u8], movements: &[u8], out: &mut [u8]) -> usize
    requires weights_value { weights_refusal net.now.shape.pairs weights.now ≡ none }
    requires room_in_bounds { room ≤ length out.old }
    ensures { Writes room out.old 0 (movements_text (net_of net.now.sheet.now) (weights_of weights.now) movements.now) result out.new }
{
    let answer = whole_movements(movements);
    if let Err(refusal) = answer {
        return put_bad(out, 0, refusal);
    }
    let mut counts = [0u32; 256];
    let list = MovementList { sheet: movements };
    put_run(net, weights, &list, &mut counts[..net.shape.pairs], out)
}

fn put_weight_sheet(net: &OpenNet, weights: &[u8], out: &mut [u8]) -> usize
    requires room_in_bounds { room ≤ length out.old }
    ensures { Writes room out.old 0 (weights_text (net_of net.now.sheet.now) weights.now) result out.new }
{
    let answer = read_weights(weights, net.shape.pairs);
    if let Err(refusal) = answer {
        return put_bad(out, 0, refusal);
    }
    put_movement_sheet(net, weights, after(weights, answer), out)
}

pub(crate) fn put_sheets(input: &[u8], out: &mut [u8]) -> usize
    requires { room ≤ length out.old }
    ensures { Writes room out.old 0 (sheets_text input.now) result out.new }
{
    let answer = read_net(input);
    if let Err(refusal) = answer {
        return put_bad(out, 0, refusal);
    }
    let net = OpenNet {
        sheet: input,
        shape: shape_of(input),
    };
    put_weight_sheet(&net, after(input, answer), out)
}
