// The exporting call: a net whose K and I are all unbounded as a text in PNML, for tools that read place/transition nets (document 02, P5).
#![tactic(auto)]

mod bounds;
pub mod elements;
pub mod texts;

ghost use Rattle.std.specs.Prelude.{◌≡◌, length};
ghost use Rattle.model.specs.Refusals.{answer};
ghost use Rattle.sheets.specs.Decoded.{net_of};
ghost use Rattle.sheets.specs.Emitted.{emitted, output};
ghost use Rattle.opened.specs.Starts.{StartsAre};
ghost use Rattle.export.specs.Exports.{export_text, room_refusal};
ghost use Rattle.export.specs.Allowed.{ExportPnmlAllows};

use crate::bounds::bounds_answer;
use crate::texts::lengths::text_length;
use crate::texts::puts::put_text;
use heads::head::refused;
use model::{Answer, Fault, Refusal, Thing};
use opened::open::OpenNet;
use opened::open_net;
use opened::starts::starts;

// 19, then 10.
fn room_answer(net: &OpenNet, starts: &[u16; 257], room: usize) -> Answer
    requires starts_are { StartsAre (net_of net.now.sheet.now).arcs starts.now }
    ensures { result ≡ answer (room_refusal net.now.sheet.now room) }
{
    bounds_answer(net, starts)?;
    if room < text_length(net, starts) {
        return refused(Thing::Net, Fault::NoRoom);
    }
    Ok(())
}

fn export_open(net: &OpenNet, out: &mut [u8]) -> Result<usize, Refusal>
    ensures value { result ≡ emitted (room_refusal net.now.sheet.now (length out.old)) (length (export_text net.now.sheet.now)) }
    ensures out_after { out.new ≡ output (room_refusal net.now.sheet.now (length out.old)) (export_text net.now.sheet.now) out.old }
{
    let starts = starts(net);
    room_answer(net, &starts, out.len())?;
    Ok(put_text(net, &starts, out))
}

// Writes the net's text from the first byte of `out` on.
pub fn export_pnml(net: &[u8], out: &mut [u8]) -> Result<usize, Refusal>
    ensures { ExportPnmlAllows net.now out.old (result, out.new) }
{
    let net = open_net(net)?;
    export_open(&net, out)
}
