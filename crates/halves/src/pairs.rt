// A pair that is new in the complement.
ghost use Rattle.std.specs.Prelude.{◌<◌};
ghost use Rattle.model.specs.Nets.{K, count};
ghost use Rattle.sheets.specs.Decoded.{net_of};
ghost use Rattle.halves.specs.Pairs.{new_pair};
ghost use Rattle.sheets.specs.written.Puts.{Room, Puts};

use model::Pair;
use opened::finite::is_finite;
use opened::open::OpenNet;
use opened::shape::{capacity, start_count};
use sheets::written::put_pair;

// "first marking: K less the original's"; an unbounded pair has no complement.
pub fn put_new_pair(net: &OpenNet, pair: Pair, out: &mut [u8], at: usize) -> usize
    requires pair_lt_pairs { pair.0 < net.now.shape.pairs }
    requires room { Room out.old at (new_pair (K (net_of net.now.sheet.now) pair.0) (count (net_of net.now.sheet.now).start pair.0)) }
    ensures { Puts out.old at (new_pair (K (net_of net.now.sheet.now) pair.0) (count (net_of net.now.sheet.now).start pair.0)) out.new result }
{
    let k = capacity(net, pair);
    if is_finite(k) {
        put_pair(out, at, 0xffff_ffff, k - start_count(net, pair))
    } else {
        at
    }
}
