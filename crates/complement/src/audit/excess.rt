// The excess at one pair: what its count and its complement's are above K, or else what the two markings differ by.
ghost use Rattle.std.specs.Prelude.{◌≡◌, ◌≤◌, ◌<◌, pos, ◌-ℤ◌};
ghost use Rattle.model.specs.Numbers.{fin};
ghost use Rattle.both_forms.specs.Audit.{excess_of, excess};
ghost use Rattle.sheets.specs.Decoded.{net_of};
ghost use Rattle.complement.specs.audit.Parts.{OneEach};

use crate::sections::bounded::{Bounded, complement_pair};
use model::Pair;
use opened::finite::is_finite;
use opened::shape::capacity;

// What the two markings differ by.
fn differ_by(count: u32, same: u32) -> i64
    ensures { result ≡ pos count -ℤ pos same }
{
    i64::from(count) - i64::from(same)
}

// Exact: a sum of two counts has at most 33 bits.
fn bounded_excess(capacity: u32, count: u32, same: u32, room: u32) -> i64
    ensures { result ≡ excess_of (fin capacity) count same room }
{
    let sum = i64::from(count) + i64::from(room);
    let most = i64::from(capacity);
    if sum == most {
        differ_by(count, same)
    } else {
        sum - most
    }
}

pub(crate) fn pair_excess(bounded: &Bounded, marking: &[u32], beside: &[u32], p: usize) -> i64
    requires one_each { OneEach (net_of bounded.now.net.now.sheet.now) marking.now beside.now }
    requires p_lt_pairs { (p < bounded.now.net.now.shape.pairs) × (bounded.now.net.now.shape.pairs ≤ 256) }
    ensures { result ≡ excess (net_of bounded.now.net.now.sheet.now) marking.now beside.now p }
{
    let pair = Pair(p as u16);
    let most = capacity(bounded.net, pair);
    let count = marking[p];
    let same = beside[p];
    if is_finite(most) {
        let other = complement_pair(bounded, pair).0 as usize;
        bounded_excess(most, count, same, beside[other])
    } else {
        differ_by(count, same)
    }
}
