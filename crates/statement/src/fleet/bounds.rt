// The bounds of a record, and of a figure in it.
ghost use Rattle.std.specs.Prelude.{◌≡◌};
ghost use Rattle.ships.specs.Entered.{is_past, is_outside, is_out_of_bounds};

use ships::Fleet;

// "above 10^18"
pub(crate) fn is_past(figure: i64) -> bool
    ensures { result ≡ is_past figure }
{
    1_000_000_000_000_000_000 < figure
}

fn is_outside(figure: i64) -> bool
    ensures { result ≡ is_outside figure }
{
    figure < 0 || is_past(figure)
}

// `|`, since the proof did not close with `||`, which splits it at each of the nine tests.
// 25: "a lent record with ships or a refusal count above 1,000, movements above 8,192,000, or a figure below 0 or above 10^18".
pub(crate) fn is_out_of_bounds(found: Fleet) -> bool
    ensures { result ≡ is_out_of_bounds found }
{
    (1000 < found.ships)
        | (8_192_000 < found.movements)
        | (1000 < found.by6)
        | (1000 < found.by11)
        | (1000 < found.by12)
        | (1000 < found.by13)
        | (1000 < found.by14)
        | is_outside(found.added)
        | is_outside(found.removed)
}
