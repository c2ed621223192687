// The importing call: a text in PNML that is an export, as a net sheet (document 02, P5). The text is checked whole first, then written: a refused call writes nothing.
#![tactic(auto)]

mod arcs;
mod places;
pub mod scan;
mod sheet;

ghost use Rattle.std.specs.Prelude.{◌≡◌, Err};
ghost use Rattle.model.specs.Refusals.{wrong};
ghost use Rattle.import.specs.scan.Kinds.{ExportOf};
ghost use Rattle.import.specs.Allowed.{ImportPnmlAllows};
ghost use Rattle.import.specs.Parts.{ImportedAs};

use crate::scan::check_text;
use crate::sheet::put_sheet;
use grammar::State;
use model::{Fault, Refusal, Thing, Version};
use sheets::written::sheet_size;

// What was written of a line: the state after it, where it ends, and the place after what was written; or there is no line.
type Wrote = Option<(State, usize, usize)>;

fn refused(thing: Thing, fault: Fault) -> Result<usize, Refusal>
    ensures { result ≡ Err (wrong thing fault) }
{
    Err(Refusal { thing, fault })
}

// 4, then 10, or the sheet: the text is an export, and `q` has its counts.
fn import_export(text: &[u8], q: State, out: &mut [u8]) -> Result<usize, Refusal>
    requires { ExportOf text.now q }
    ensures { ImportedAs text.now out.old result out.new }
{
    if 64 < q.places || 64 < q.modes {
        return refused(Thing::Argument, Fault::CountOutside(0));
    }
    let places = q.places as usize;
    let modes = q.modes as usize;
    let size = sheet_size(Version::One, places, modes, places, modes, q.arcs as usize);
    if out.len() < size {
        return refused(Thing::Net, Fault::NoRoom);
    }
    Ok(put_sheet(text, q, size, out))
}

// Writes the net whose export the text is as a sheet of version 1, from the first byte of `out` on.
pub fn import_pnml(text: &[u8], out: &mut [u8]) -> Result<usize, Refusal>
    ensures { ImportPnmlAllows text.now out.old (result, out.new) }
{
    match check_text(text) {
        Err(at) => refused(Thing::Net, Fault::NotAnExport(at)),
        Ok(q) => import_export(text, q, out),
    }
}
