// Pairs of finite K: how many stand below each pair. It numbers the complement pairs and says how many a place has.
ghost use Rattle.std.specs.Prelude.{◌≡◌, ◌+◌, ◌-◌, ◌≤◌, get_or};
ghost use Rattle.sheets.specs.Decoded.{net_of};
ghost use Rattle.halves.specs.Bounded.{BelowAre};

use halves::bounded::one_if_bounded;
use model::Pair;
use opened::open::OpenNet;

// A net beside its table: entry p is how many pairs below p have a finite K.
#[derive(Clone, Copy)]
pub(crate) struct Bounded<'a> {
    pub net: &'a OpenNet<'a>,
    pub below: [u16; 257],
    ghost below_are: { BelowAre (net_of net.now.sheet.now) below },
}

pub(crate) fn bounded_below<'a>(net: &'a OpenNet<'a>) -> Bounded<'a>
    ensures { result.net.now ≡ net.now }
{
    let mut below = [0u16; 257];
    let mut count = 0;
    for p in 0..net.shape.pairs {
        count += one_if_bounded(net, p);
        below[p + 1] = count;
    }
    Bounded { net, below }
}

// "Each pair of finite K gets a complement pair, numbered after all originals in rising order."
pub(crate) fn complement_pair(bounded: &Bounded, pair: Pair) -> Pair
    requires { (pair.0 ≤ 256) × (get_or bounded.now.below pair.0 0 ≤ 256) }
    ensures { result.0 ≡ bounded.now.net.now.shape.pairs + get_or bounded.now.below pair.0 0 }
{
    Pair(bounded.net.shape.pairs as u16 + bounded.below[pair.0 as usize])
}

// How many of the pairs from `first` up to `end` have a finite K.
pub(crate) fn bounded_between(bounded: &Bounded, first: usize, end: usize) -> usize
    requires { (first ≤ 256) × (end ≤ 256) × (get_or bounded.now.below first 0 ≤ get_or bounded.now.below end 0) × (get_or bounded.now.below end 0 ≤ 256) }
    ensures { result ≡ get_or bounded.now.below end 0 - get_or bounded.now.below first 0 }
{
    (bounded.below[end] - bounded.below[first]) as usize
}
