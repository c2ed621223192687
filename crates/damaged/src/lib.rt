// The damaged bytes of a movement sheet: how many modes of them are considered.
#![tactic(auto)]

ghost use Rattle.std.specs.Prelude.{◌≡◌};
ghost use Rattle.damaged.specs.Damaged.{considered};
ghost use Rattle.damaged.specs.Parts.{Legible};

use heads::head::sheet_end;

// A length above what is there does not wrap: it has 32 bits.
pub fn count_considered(s: &[u8]) -> usize
    requires { Legible s.now }
    ensures { result ≡ considered s.now }
{
    let end = sheet_end(s).min(s.len());
    ((end - 5) / 2).min(8192)
}
