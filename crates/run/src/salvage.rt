// Salvage of a cut movement sheet (document 02, P11): a fresh sheet with the longest run of leading modes that the net accepts from its first marking.
mod damage;
mod fresh;
mod trial;

ghost use Rattle.std.specs.Prelude.{◌≡◌, ◌≤◌, length};
ghost use Rattle.model.specs.First.{◌▸◌};
ghost use Rattle.sheets.specs.Emitted.{output, too_short};
ghost use Rattle.damaged.specs.Damaged.{damaged_refusal, considered};
ghost use Rattle.damaged.specs.Parts.{Legible};
ghost use Rattle.run.specs.salvage.Salvaged.{sheet_of_first, report_of, salvaged, kept as kept_by, report, fresh_sheet};
ghost use Rattle.run.specs.salvage.Allowed.{SalvageAllows};

use crate::salvage::damage::read_damaged;
use crate::salvage::fresh::put_fresh;
use crate::salvage::trial::run_considered;
use damaged::count_considered;
use model::{Answer, Fault, Refusal, Thing};
use opened::open::OpenNet;
use opened::open_net;

// How long the fresh sheet is, how many movements it keeps, how many more were considered, and the first refusal among these.
#[derive(Clone, Copy)]
pub struct Report {
    pub length: usize,
    pub kept: usize,
    pub dropped: usize,
    pub stop: Answer,
}

// "10 for a short output", or the sheet.
fn write_kept(
    damaged: &[u8],
    count: usize,
    kept: usize,
    stop: Answer,
    out: &mut [u8],
) -> Result<Report, Refusal>
    requires legible { Legible damaged.now }
    requires count_value { (count ≡ considered damaged.now) × (kept ≤ count) }
    ensures value { result ≡ salvaged (too_short (sheet_of_first damaged.now kept) (length out.old)) (report_of damaged.now kept stop) }
    ensures out_after { out.new ≡ output (too_short (sheet_of_first damaged.now kept) (length out.old)) (sheet_of_first damaged.now kept) out.old }
{
    if out.len() < 5 + 2 * kept {
        return Err(Refusal {
            thing: Thing::Net,
            fault: Fault::NoRoom,
        });
    }
    let length = put_fresh(damaged, kept, out);
    Ok(Report {
        length,
        kept,
        dropped: count - kept,
        stop,
    })
}

fn salvage_open(net: &OpenNet, damaged: &[u8], out: &mut [u8]) -> Result<Report, Refusal>
    ensures value { result ≡ salvaged (damaged_refusal damaged.now ▸ too_short (fresh_sheet net.now.sheet.now damaged.now) (length out.old)) (report net.now.sheet.now damaged.now) }
    ensures out_after { out.new ≡ output (damaged_refusal damaged.now ▸ too_short (fresh_sheet net.now.sheet.now damaged.now) (length out.old)) (fresh_sheet net.now.sheet.now damaged.now) out.old }
{
    read_damaged(damaged)?;
    let count = count_considered(damaged);
    let ran = run_considered(net, damaged, count);
    write_kept(damaged, count, ran.accepted, ran.answer, out)
}

// Writes what can be kept of a damaged movement sheet from the first byte of `out` on.
pub fn salvage(net: &[u8], damaged: &[u8], out: &mut [u8]) -> Result<Report, Refusal>
    ensures { SalvageAllows net.now damaged.now out.old (result, out.new) }
{
    let net = open_net(net)?;
    salvage_open(&net, damaged, out)
}
