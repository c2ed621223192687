// The arcs of the new transition: "its mode n, for n from 0 to K, has Pre n and I n at the chosen pair".
ghost use Rattle.std.specs.Prelude.{◌+◌, ◌≤◌, length};
ghost use Rattle.model.specs.Lists.{joined};
ghost use Rattle.sheets.specs.written.Puts.{Put, Room, Puts, mode_size, own_size};
ghost use Rattle.convert.specs.strip.Parts.{new_group};

use model::{Pair, Version};
use sheets::written::{put_arc_mode, put_own, put16, put32};

// One inscription on the normal and the inhibitor arc.
fn put_new_mode(
    version: Version,
    before: usize,
    pair: Pair,
    n: usize,
    out: &mut [u8],
    at: usize,
) -> usize
    requires n_bound { before + n ≤ 256 }
    requires version_in_bounds { at + (own_size version + (mode_size version + 14)) ≤ length out.old }
    ensures { Put out.old at (own_size version + (mode_size version + 14)) (new_group version before pair n) out.new result }
{
    let to_mode = put_own(out, at, version, 1);
    let to_pair = put_arc_mode(out, to_mode, version, (before + n) as u16);
    let to_pre = put16(out, to_pair, pair.0);
    let to_post = put32(out, to_pre, n as u32);
    let to_inhibitor = put32(out, to_post, 0);
    put32(out, to_inhibitor, n as u32)
}

pub(crate) fn put_new_modes(
    version: Version,
    before: usize,
    pair: Pair,
    many: usize,
    out: &mut [u8],
    at: usize,
) -> usize
    requires many_bound { before + many ≤ 256 }
    requires room { Room out.old at (joined many (new_group version before pair)) }
    ensures { Puts out.old at (joined many (new_group version before pair)) out.new result }
{
    let mut next = at;
    for n in 0..many {
        next = put_new_mode(version, before, pair, n, out, next);
    }
    next
}
