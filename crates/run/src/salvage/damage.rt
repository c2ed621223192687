// What is refused of damaged bytes.
ghost use Rattle.std.specs.Prelude.{◌≡◌};
ghost use Rattle.model.specs.Refusals.{answer};
ghost use Rattle.damaged.specs.Damaged.{damaged_refusal};

use heads::head::{refused, sheet_end};
use model::{Answer, Fault, Thing};

// "1 for fewer than 5 bytes, 3 for L = 0, 2".
pub(crate) fn read_damaged(s: &[u8]) -> Answer
    ensures { result ≡ answer (damaged_refusal s.now) }
{
    if s.len() < 5 {
        return refused(Thing::Movements, Fault::CutShort);
    }
    if sheet_end(s) == 4 {
        return refused(Thing::Movements, Fault::WrongLength(0));
    }
    if s[4] != 1 {
        return refused(Thing::Movements, Fault::WrongVersion(4));
    }
    Ok(())
}
