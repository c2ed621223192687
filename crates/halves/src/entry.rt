// One arc of the complement: what an arc puts at the complement pair.
ghost use Rattle.std.specs.Prelude.{◌≡◌};
ghost use Rattle.fields.specs.Numbers.{bound};
ghost use Rattle.sheets.specs.Decoded.{net_arc};
ghost use Rattle.halves.specs.Entries.{Small, complement_at};

use counterpart::{given_back, taken};
use model::{Arc, CapacityRule, Pair};
use opened::finite::is_finite;

// What is taken there and given back; nothing where K is unbounded.
pub fn complement_arc(arc: Arc, rule: CapacityRule, dead: bool, capacity: u32, pair: Pair) -> Arc
    requires { Small arc capacity }
    ensures { net_arc result ≡ complement_at pair rule dead (bound capacity) (net_arc arc) }
{
    let (pre, post) = if is_finite(capacity) {
        let pre = taken(rule, arc, capacity);
        (pre, given_back(dead, pre, arc))
    } else {
        (0, 0)
    };
    Arc {
        mode: arc.mode,
        pair,
        pre,
        post,
        inhibitor: 0xffff_ffff,
    }
}
