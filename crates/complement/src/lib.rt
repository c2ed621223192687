// The complementing call: the second form of a net, in which a token left behind shows at once (document 01, "The complemented net").
// It writes the sheet of the complement straight from the sheet of the net.
#![tactic(auto)]

pub mod audit;
pub mod check;
mod refusals;
mod room;
pub mod sections;
mod sheet;

ghost use Rattle.std.specs.Prelude.{◌≡◌, length};
ghost use Rattle.sheets.specs.Emitted.{emitted, output};
ghost use Rattle.complement.specs.Complemented.{complement_sheet, room_refusal};
ghost use Rattle.complement.specs.Allowed.{ComplementAllows};

use crate::room::complement_answer;
use crate::sections::bounded::{Bounded, bounded_below};
use crate::sections::survey::survey;
use crate::sheet::{complement_sizes, put_sheet};
use model::Refusal;
use opened::open_net;
use opened::starts::starts;

fn complement_open(bounded: &Bounded, out: &mut [u8]) -> Result<usize, Refusal>
    ensures value { result ≡ emitted (room_refusal bounded.now.net.now.sheet.now (length out.old)) (length (complement_sheet bounded.now.net.now.sheet.now)) }
    ensures out_after { out.new ≡ output (room_refusal bounded.now.net.now.sheet.now (length out.old)) (complement_sheet bounded.now.net.now.sheet.now) out.old }
{
    let starts = starts(bounded.net);
    let mut dead = [false; 256];
    let clear = survey(bounded.net, &starts, &mut dead);
    let most = complement_sizes(bounded, 2 * bounded.net.shape.arcs);
    complement_answer(bounded, &starts, &dead, clear, most, out.len())?;
    Ok(put_sheet(bounded, &starts, &dead, most, out))
}

// Writes the sheet of the net's complement from the first byte of `out` on.
pub fn complement(net: &[u8], out: &mut [u8]) -> Result<usize, Refusal>
    ensures { ComplementAllows net.now out.old (result, out.new) }
{
    let net = open_net(net)?;
    complement_open(&bounded_below(&net), out)
}
