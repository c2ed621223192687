// A net sheet that has been accepted, looked into in place: where its parts stand is worked out once a call, and kept by value.
ghost use Rattle.std.specs.Prelude.{◌≡◌, ◌+◌, ◌≤◌, ◌<◌, length, get_or};
ghost use Rattle.std.proofs.Math.Option.{none};
ghost use Rattle.model.specs.Numbers.{limit};
ghost use Rattle.model.specs.Nets.{K, count};
ghost use Rattle.heads.specs.Layout.{pairs_offset, pair_at};
ghost use Rattle.fields.specs.Numbers.{bound};
ghost use Rattle.sheets.specs.nets.Nets.{net_refusal};
ghost use Rattle.sheets.specs.Decoded.{net_of};
ghost use Rattle.opened.specs.Shape.{shape_of};

use crate::groups::count_arcs;
use crate::open::OpenNet;
use crate::rule::rule_of;
use fields::read::count_at;
use heads::bytes::u32_at;
use heads::head::fields_at;
use heads::version::version_of;
use model::{CapacityRule, Pair, Version};
use sheets::nets::net::{mode_count, pair_count, pairs_at};

// The version of a net's sheet, the net's capacity rule, how many places, transitions, pairs, modes and arcs the net has, and where its pairs, and then its
// arcs with their counts, stand in the sheet.
#[derive(Clone, Copy)]
pub struct NetShape {
    pub version: Version,
    pub rule: CapacityRule,
    pub places: usize,
    pub transitions: usize,
    pub pairs: usize,
    pub modes: usize,
    pub arcs: usize,
    pairs_at: usize,
    pub(crate) arcs_at: usize,
}

pub fn shape_of(s: &[u8]) -> NetShape
    requires { net_refusal s.now ≡ none }
    ensures { result ≡ shape_of s.now }
{
    let version = version_of(s);
    let rule = rule_of(s, version);
    let fields = fields_at(s);
    let places = count_at(s, fields);
    let transitions = count_at(s, fields + 2);
    let pairs = pair_count(s);
    let modes = mode_count(s);
    let first_pair = pairs_at(s);
    let at = first_pair + 8 * pairs;
    NetShape {
        version,
        rule,
        places,
        transitions,
        pairs,
        modes,
        arcs: count_arcs(s, at, modes),
        pairs_at: first_pair,
        arcs_at: at,
    }
}

// How many colours a place has.
pub fn colours_of(net: &OpenNet, place: usize) -> usize
    requires place_lt_places { place < net.now.shape.places }
    ensures { (result ≡ get_or (net_of net.now.sheet.now).colours place 0) × (1 ≤ result) × (result ≤ 64) }
{
    count_at(net.sheet, fields_at(net.sheet) + 4 + 2 * place)
}

// How many modes a transition has.
pub fn modes_of(net: &OpenNet, transition: usize) -> usize
    requires transition_lt_transitions { transition < net.now.shape.transitions }
    ensures { (result ≡ get_or (net_of net.now.sheet.now).modes_of transition 0) × (1 ≤ result) × (result ≤ 64) }
{
    count_at(
        net.sheet,
        fields_at(net.sheet) + 4 + 2 * net.shape.places + 2 * transition,
    )
}

// Where the pair's K stands, and after it the first marking: the position of refusal 19 at a pair.
pub fn pair_at(net: &OpenNet, pair: Pair) -> usize
    requires pair_lt_pairs { pair.0 < net.now.shape.pairs }
    ensures { (result ≡ pair_at (pairs_offset net.now.sheet.now) pair.0) × (result + 8 ≤ length net.now.sheet.now) }
{
    net.shape.pairs_at + 8 * (pair.0 as usize)
}

// K of a pair, as the sheet writes it: 4,294,967,295 is unbounded.
pub fn capacity(net: &OpenNet, pair: Pair) -> u32
    requires pair_lt_pairs { pair.0 < net.now.shape.pairs }
    ensures { bound result ≡ K (net_of net.now.sheet.now) pair.0 }
{
    u32_at(net.sheet, pair_at(net, pair))
}

// The first marking's count at a pair.
pub fn start_count(net: &OpenNet, pair: Pair) -> u32
    requires pair_lt_pairs { pair.0 < net.now.shape.pairs }
    ensures { (result ≡ count (net_of net.now.sheet.now).start pair.0) × (result ≤ limit) }
{
    u32_at(net.sheet, pair_at(net, pair) + 4)
}
