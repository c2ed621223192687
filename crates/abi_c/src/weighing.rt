// Kilograms: the figure of a marking, a mode's weight change.
ghost use Rattle.abi.specs.Allowed.{FigureAllows, ChangeAllows};

use answers::Weighed;
use model::Mode;

#[unsafe(no_mangle)]
pub extern "C" fn pnet_figure(net: &[u8], weights: &[u8], marking: &[u32]) -> Weighed
    ensures { FigureAllows net.now weights.now marking.now result }
{
    abi::weighing::pnet_figure(net, weights, marking)
}

#[unsafe(no_mangle)]
pub extern "C" fn pnet_change(net: &[u8], weights: &[u8], mode: Mode) -> Weighed
    ensures { ChangeAllows net.now weights.now mode result }
{
    abi::weighing::pnet_change(net, weights, mode)
}
