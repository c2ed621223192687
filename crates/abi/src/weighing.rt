// Kilograms: the figure of a marking, a mode's weight change.
ghost use Rattle.abi.specs.Allowed.{FigureAllows, ChangeAllows};

use answers::Weighed;
use model::Mode;
use statement::weigh::{change, figure};

pub fn pnet_figure(net: &[u8], weights: &[u8], marking: &[u32]) -> Weighed
    ensures { FigureAllows net.now weights.now marking.now result }
{
    figure(net, weights, marking).into()
}

pub fn pnet_change(net: &[u8], weights: &[u8], mode: Mode) -> Weighed
    ensures { ChangeAllows net.now weights.now mode result }
{
    change(net, weights, mode).into()
}
