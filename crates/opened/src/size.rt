// How large a net is, so that no caller looks into its sheet: how many counts its markings have, and which modes there are.
ghost use Rattle.std.specs.Prelude.{◌≡◌};
ghost use Rattle.sheets.specs.Decoded.{net_of};
ghost use Rattle.opened.specs.size.Sizes.{size_of};
ghost use Rattle.opened.specs.size.Allowed.{SizeAllows};

use crate::open::OpenNet;
use crate::open_net;
use model::Refusal;

#[derive(Clone, Copy)]
pub struct NetSize {
    pub pairs: usize,
    pub modes: usize,
    pub arcs: usize,
}

fn size_of(net: &OpenNet) -> NetSize
    ensures { result ≡ size_of (net_of net.now.sheet.now) }
{
    NetSize {
        pairs: net.shape.pairs,
        modes: net.shape.modes,
        arcs: net.shape.arcs,
    }
}

pub fn size(net: &[u8]) -> Result<NetSize, Refusal>
    ensures { SizeAllows net.now result }
{
    let net = open_net(net)?;
    Ok(size_of(&net))
}
