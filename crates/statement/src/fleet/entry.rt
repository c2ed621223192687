// A ship's run entered in the record.
ghost use Rattle.std.specs.Prelude.{◌≡◌, cond, ◌+◌, ◌≤◌, eqb, nat_abs, ◌+ℤ◌};
ghost use Rattle.model.specs.Refusals.{number};
ghost use Rattle.ships.specs.Ships.{with_voyage};
ghost use Rattle.ships.specs.Entered.{Figure, InBounds};
ghost use Rattle.statement.specs.fleet.Parts.{Light, heaviest};

use crate::told::line_of;
use model::Answer;
use ships::{Fleet, Voyage};

fn number_of(answer: Answer) -> u64
    ensures { result ≡ number answer }
{
    match answer {
        Ok(()) => 0,
        Err(refusal) => line_of(refusal.fault).number,
    }
}

// One more where the run ends by the number that is counted here.
fn raise(count: u64, number: u64, counted: u64) -> u64
    requires { count ≤ 1000 }
    ensures { result ≡ count + cond (eqb number counted) 1 0 }
{
    count + u64::from(number == counted)
}

// The sum may pass 10^18, and does not wrap: 24 is tested after it.
fn add_figure(figure: i64, more: i64) -> i64
    requires figure { Figure figure }
    requires more_bound { nat_abs more ≤ heaviest }
    ensures { result ≡ figure +ℤ more }
{
    figure + more
}

// The record with one ship more.
pub(crate) fn with_voyage(found: Fleet, voyage: Voyage) -> Fleet
    requires in_bounds { InBounds found }
    requires light { Light voyage }
    ensures { result ≡ with_voyage found voyage }
{
    let number = number_of(voyage.answer);
    Fleet {
        ships: found.ships + 1,
        movements: found.movements + voyage.accepted as u64,
        by6: raise(found.by6, number, 6),
        by11: raise(found.by11, number, 11),
        by12: raise(found.by12, number, 12),
        by13: raise(found.by13, number, 13),
        by14: raise(found.by14, number, 14),
        added: add_figure(found.added, voyage.added),
        removed: add_figure(found.removed, voyage.removed),
    }
}
