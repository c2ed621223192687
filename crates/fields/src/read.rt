// What the readers of every sheet share: a count, and what is left over after the last field.
ghost use Rattle.std.specs.Prelude.{◌≡◌, ◌+◌, ◌<◌, ◌≤◌, length};
ghost use Rattle.model.specs.Refusals.{answer};
ghost use Rattle.heads.specs.Bytes.{u16_at};
ghost use Rattle.heads.specs.Checks.{left_over};

use heads::bytes::u16_at;
use heads::head::{refused, sheet_end};
use heads::sheet::Sheet;
use model::{Answer, Fault, Thing};

// A count of 2 bytes.
pub fn count_at(s: &[u8], at: usize) -> usize
    requires { at + 2 ≤ length s.now }
    ensures { (result ≡ u16_at s.now at) × (result < 65536) }
{
    usize::from(u16_at(s, at))
}

// Bytes of the sheet after the last field, which ends at `at`.
pub fn left_over(sheet: &Sheet, thing: Thing, at: usize) -> Answer
    ensures { result ≡ answer (left_over thing sheet.now.bytes.now at) }
{
    if at < sheet_end(sheet.bytes) {
        return refused(thing, Fault::WrongLength(at));
    }
    Ok(())
}
