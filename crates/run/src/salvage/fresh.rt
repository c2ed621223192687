// The fresh sheet: its length, then the version and the modes that are kept, as they stand in the damaged bytes.
ghost use Rattle.std.specs.Prelude.{◌≤◌};
ghost use Rattle.sheets.specs.written.Puts.{Room, Puts};
ghost use Rattle.damaged.specs.Damaged.{considered};
ghost use Rattle.damaged.specs.Parts.{Legible};
ghost use Rattle.run.specs.salvage.Salvaged.{sheet_of_first};

use sheets::written::{put_part, put32};

pub(crate) fn put_fresh(damaged: &[u8], kept: usize, out: &mut [u8]) -> usize
    requires legible { Legible damaged.now }
    requires kept_bound { kept ≤ considered damaged.now }
    requires room { Room out.old 0 (sheet_of_first damaged.now kept) }
    ensures { Puts out.old 0 (sheet_of_first damaged.now kept) out.new result }
{
    let size = 1 + 2 * kept;
    let next = put32(out, 0, size as u32);
    put_part(damaged, 4, size, out, next)
}
