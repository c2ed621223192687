// The pairs of the complement: all K unbounded, the originals with their first marking, each complement pair with K less the original's.
ghost use Rattle.std.specs.Prelude.{◌<◌};
ghost use Rattle.second_form.specs.Complement.{complement};
ghost use Rattle.model.specs.Lists.{joined};
ghost use Rattle.sheets.specs.Decoded.{net_of};
ghost use Rattle.sheets.specs.written.Puts.{Room, Puts};
ghost use Rattle.sheets.specs.written.Written.{pairs_bytes};
ghost use Rattle.halves.specs.Pairs.{half_pair};

use halves::half::Half;
use halves::pairs::put_new_pair;
use model::Pair;
use opened::open::OpenNet;
use opened::shape::start_count;
use sheets::written::put_pair;

fn put_half_pair(net: &OpenNet, half: Half, p: usize, out: &mut [u8], at: usize) -> usize
    requires p_lt_pairs { p < net.now.shape.pairs }
    requires room { Room out.old at (half_pair (net_of net.now.sheet.now) half p) }
    ensures { Puts out.old at (half_pair (net_of net.now.sheet.now) half p) out.new result }
{
    let pair = Pair(p as u16);
    match half {
        Half::Original => put_pair(out, at, 0xffff_ffff, start_count(net, pair)),
        Half::Complement => put_new_pair(net, pair, out, at),
    }
}

fn put_half_pairs(net: &OpenNet, half: Half, out: &mut [u8], at: usize) -> usize
    requires room { Room out.old at (joined net.now.shape.pairs (half_pair (net_of net.now.sheet.now) half)) }
    ensures { Puts out.old at (joined net.now.shape.pairs (half_pair (net_of net.now.sheet.now) half)) out.new result }
{
    let mut next = at;
    for p in 0..net.shape.pairs {
        next = put_half_pair(net, half, p, out, next);
    }
    next
}

// "numbered after all originals in rising order"
pub(crate) fn put_pairs(net: &OpenNet, out: &mut [u8], at: usize) -> usize
    requires room { Room out.old at (pairs_bytes (complement (net_of net.now.sheet.now))) }
    ensures { Puts out.old at (pairs_bytes (complement (net_of net.now.sheet.now))) out.new result }
{
    let next = put_half_pairs(net, Half::Original, out, at);
    put_half_pairs(net, Half::Complement, out, next)
}
