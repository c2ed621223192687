// The lightship figure of a marking and a mode's weight change, in kilograms (document 01, "Certificate, figure, dead modes"):
// i32 weights, exact i64 sums.
pub mod changes;
pub mod sums;

ghost use Rattle.std.specs.Prelude.{◌≡◌};
ghost use Rattle.model.specs.declared.Thing.TheVariants.{Argument};
ghost use Rattle.model.specs.First.{◌▸◌};
ghost use Rattle.model.specs.Nets.{pairs as pairs_of, modes};
ghost use Rattle.model.specs.Markings.{marking_refusal};
ghost use Rattle.model.specs.Firing.{absent};
ghost use Rattle.movement.specs.Figures.{figure as figure_at, change as change_by};
ghost use Rattle.sheets.specs.Whole.{whole_weights};
ghost use Rattle.sheets.specs.Decoded.{net_of, weights_of};
ghost use Rattle.statement.specs.weigh.Calls.{figured};
ghost use Rattle.statement.specs.weigh.Allowed.{FigureAllows, ChangeAllows};

use crate::weigh::sums::{figure_of, gains};
use fire::marking::marking_answer;
use model::{Fault, Mode, Refusal, Thing};
use opened::open::OpenNet;
use opened::open_net;
use opened::starts::find_arcs;
use sheets::whole::whole_weights;

fn figure_answer(net: &OpenNet, weights: &[u8], marking: &[u32]) -> Result<i64, Refusal>
    ensures { result ≡ figured (whole_weights (pairs_of (net_of net.now.sheet.now)) weights.now ▸ marking_refusal (net_of net.now.sheet.now) marking.now) (figure_at (net_of net.now.sheet.now) (weights_of weights.now) marking.now) }
{
    whole_weights(weights, net.shape.pairs)?;
    marking_answer(net, marking)?;
    Ok(figure_of(net, weights, marking))
}

fn change_answer(net: &OpenNet, weights: &[u8], mode: Mode) -> Result<i64, Refusal>
    ensures { result ≡ figured (whole_weights (pairs_of (net_of net.now.sheet.now)) weights.now ▸ absent Argument (modes (net_of net.now.sheet.now)) mode) (change_by (net_of net.now.sheet.now) (weights_of weights.now) mode) }
{
    whole_weights(weights, net.shape.pairs)?;
    if net.shape.modes <= mode.0 as usize {
        return Err(Refusal {
            thing: Thing::Argument,
            fault: Fault::NotThere,
        });
    }
    Ok(gains(net, weights, find_arcs(net, mode)))
}

pub fn figure(net: &[u8], weights: &[u8], marking: &[u32]) -> Result<i64, Refusal>
    ensures { FigureAllows net.now weights.now marking.now result }
{
    let net = open_net(net)?;
    figure_answer(&net, weights, marking)
}

pub fn change(net: &[u8], weights: &[u8], mode: Mode) -> Result<i64, Refusal>
    ensures { ChangeAllows net.now weights.now mode result }
{
    let net = open_net(net)?;
    change_answer(&net, weights, mode)
}
