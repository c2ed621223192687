// The 14 bytes that an arc has in both versions: its pair, which is read with the arc's other names, and its numbers.
ghost use Rattle.std.specs.Prelude.{◌≡◌, ◌+◌, ◌≤◌, length};
ghost use Rattle.model.specs.Refusals.{answer};
ghost use Rattle.sheets.specs.nets.Tails.{blank, tail_numbers};

use fields::numbers::bound_outside;
use heads::bytes::u32_at;
use heads::head::refused;
use model::{Answer, Fault, Thing};

fn is_blank(pre: u32, post: u32, inhibitor: u32) -> bool
    ensures { result ≡ blank pre post inhibitor }
{
    pre == 0 && post == 0 && inhibitor == 0xffff_ffff
}

// 5 for Pre, Post and I in turn, 8: of the arc at `arc`, whose 14 bytes stand at `tail`.
pub(crate) fn read_numbers(s: &[u8], arc: usize, tail: usize) -> Answer
    requires { tail + 14 ≤ length s.now }
    ensures { result ≡ answer (tail_numbers s.now arc tail) }
{
    let pre = u32_at(s, tail + 2);
    let post = u32_at(s, tail + 6);
    let inhibitor = u32_at(s, tail + 10);
    if 1_000_000 < pre {
        return refused(Thing::Net, Fault::NumberOutside(tail + 2));
    }
    if 1_000_000 < post {
        return refused(Thing::Net, Fault::NumberOutside(tail + 6));
    }
    if bound_outside(inhibitor) {
        return refused(Thing::Net, Fault::NumberOutside(tail + 10));
    }
    if is_blank(pre, post, inhibitor) {
        return refused(Thing::Net, Fault::Blank(arc));
    }
    Ok(())
}
