// A movement sheet: mode numbers, 2 bytes each, at most 8,192.
ghost use Rattle.std.specs.Prelude.{◌≡◌};
ghost use Rattle.model.specs.Refusals.{answer};
ghost use Rattle.heads.specs.Layout.{movement_count};
ghost use Rattle.heads.specs.Held.{Headed};
ghost use Rattle.sheets.specs.lists.Movements.{movement_fields};
ghost use Rattle.sheets.specs.lists.Allowed.{ReadMovementsAllows};

use heads::head::{read_head, refused, sheet_end};
use heads::sheet::Sheet;
use model::{Answer, Fault, Thing};

// How many whole mode numbers stand in the sheet.
pub fn movement_count(s: &[u8]) -> usize
    requires { Headed s.now }
    ensures { result ≡ movement_count s.now }
{
    (sheet_end(s) - 5) / 2
}

fn movement_fields(sheet: &Sheet) -> Answer
    ensures { result ≡ answer (movement_fields sheet.now.bytes.now) }
{
    let count = movement_count(sheet.bytes);
    let end = 5 + 2 * count;
    if end < sheet_end(sheet.bytes) {
        return refused(Thing::Movements, Fault::WrongLength(end));
    }
    if 8192 < count {
        return refused(Thing::Movements, Fault::CountOutside(5));
    }
    Ok(())
}

pub fn read_movements(s: &[u8]) -> Answer
    ensures { ReadMovementsAllows s.now result }
{
    read_head(s, Thing::Movements)?;
    movement_fields(&Sheet { bytes: s })
}
