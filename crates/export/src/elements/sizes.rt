// How long the lines are, worked out before any is put.
ghost use Rattle.std.specs.Prelude.{◌≡◌, ◌≤◌};
ghost use Rattle.model.specs.Numbers.{limit};
ghost use Rattle.export.specs.elements.Sizes.{place_size, weight_size};

use text::digits::digit_count;

pub(crate) fn place_size(count: u32) -> usize
    requires { count ≤ limit }
    ensures { (result ≡ place_size count) × (result ≤ 85) }
{
    78 + digit_count(u64::from(count))
}

// An arc of weight 0 is not there.
pub(crate) fn weight_size(weight: u32) -> usize
    requires { weight ≤ limit }
    ensures { (result ≡ weight_size weight) × (result ≤ 107) }
{
    if weight == 0 {
        0
    } else {
        100 + digit_count(u64::from(weight))
    }
}
