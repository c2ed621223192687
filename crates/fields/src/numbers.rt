// Numbers of a net sheet: 0..1,000,000, and for K and I also 4,294,967,295, which means unbounded.
ghost use Rattle.std.specs.Prelude.{◌≡◌};
ghost use Rattle.model.specs.Numbers.{above};
ghost use Rattle.fields.specs.Numbers.{bound, outside};

pub fn bound_outside(x: u32) -> bool
    ensures { result ≡ outside (bound x) }
{
    x != 0xffff_ffff && 1_000_000 < x
}

// A count above a finite K.
pub fn above_bound(count: u32, x: u32) -> bool
    ensures { result ≡ above count (bound x) }
{
    x != 0xffff_ffff && x < count
}
