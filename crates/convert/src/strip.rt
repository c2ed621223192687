// The stripping call (document 02, P7): "Blasting removes all tokens at a pair whatever their number." It writes the sheet of the net with a transition
// appended, straight from the sheet of the net.
mod modes;
mod room;
mod sheet;

ghost use Rattle.std.specs.Prelude.{◌≡◌, length};
ghost use Rattle.sheets.specs.Emitted.{emitted, output};
ghost use Rattle.convert.specs.strip.Stripped.{stripped_sheet, room_refusal};
ghost use Rattle.convert.specs.strip.Allowed.{StripAllows};

use crate::strip::room::strip_answer;
use crate::strip::sheet::put_sheet;
use model::{Pair, Refusal};
use opened::open::OpenNet;
use opened::open_net;
use opened::shape::capacity;

fn strip_open(net: &OpenNet, pair: Pair, out: &mut [u8]) -> Result<usize, Refusal>
    ensures value { result ≡ emitted (room_refusal net.now.sheet.now pair (length out.old)) (length (stripped_sheet net.now.sheet.now pair)) }
    ensures out_after { out.new ≡ output (room_refusal net.now.sheet.now pair (length out.old)) (stripped_sheet net.now.sheet.now pair) out.old }
{
    strip_answer(net, pair, out.len())?;
    let k = capacity(net, pair) as usize;
    Ok(put_sheet(net, pair, k, out))
}

// Writes the net with a transition that strips `pair`, from the first byte of `out` on.
pub fn strip(net: &[u8], pair: Pair, out: &mut [u8]) -> Result<usize, Refusal>
    ensures { StripAllows net.now pair out.old (result, out.new) }
{
    let net = open_net(net)?;
    strip_open(&net, pair, out)
}
