// A K or an I as a sheet writes it: a number, or 4,294,967,295 for unbounded. No enum: that number is the largest, so that the lesser of two bounds, and a test against
// one, need no case (docs/SPEED.md; `bound` says what it means).
ghost use Rattle.std.specs.Prelude.{◌≡◌};
ghost use Rattle.second_form.specs.Complement.{finite};
ghost use Rattle.fields.specs.Numbers.{bound};

pub fn is_finite(x: u32) -> bool
    ensures { result ≡ finite (bound x) }
{
    x != 0xffff_ffff
}
