// What a movement sheet and a weight sheet list, read in place once the sheet has been accepted.
ghost use Rattle.std.specs.Prelude.{◌≡◌, ◌+◌, ◌≤◌, ◌<◌, nat_abs, length, get_or};
ghost use Rattle.std.proofs.Math.Option.{none};
ghost use Rattle.model.specs.Numbers.{limit};
ghost use Rattle.model.specs.Nets.{mode_no};
ghost use Rattle.movement.specs.Figures.{weight as weight_of};
ghost use Rattle.heads.specs.Layout.{movements_at};
ghost use Rattle.sheets.specs.lists.Weights.{signed, weights_refusal};
ghost use Rattle.sheets.specs.Decoded.{movements_of, weights_of};
ghost use Rattle.sheets.specs.Listed.{mode_at, ModesStand};

use crate::list::MovementList;
use heads::bytes::{u16_at, u32_at};
use model::{Mode, Pair};

// The k-th of the mode numbers that stand from `start` on.
pub fn mode_at(s: &[u8], start: usize, k: usize) -> Mode
    requires { ModesStand s.now start (k + 1) }
    ensures { result ≡ mode_at s.now start k }
{
    Mode(u16_at(s, start + 2 * k))
}

// Where the mode numbers of a movement sheet stand.
pub fn movements_at() -> usize
    ensures { result ≡ movements_at }
{
    5
}

pub fn movement(list: &MovementList, k: usize) -> Mode
    requires k_in_bounds { k < length (movements_of list.now.sheet.now) }
    ensures { result ≡ get_or (movements_of list.now.sheet.now) k (mode_no 0) }
{
    mode_at(list.sheet, movements_at(), k)
}

// A number of 4 bytes in two's complement.
fn signed_of(x: u32) -> i32
    ensures { result ≡ signed x }
{
    if x < 0x8000_0000 {
        x as i32
    } else {
        ((x as i64) - 4_294_967_296) as i32
    }
}

// The weight of a pair in kilograms, in a sheet that was accepted for that many pairs.
pub fn weight(s: &[u8], pairs: usize, pair: Pair) -> i32
    requires s_value { weights_refusal pairs s.now ≡ none }
    requires pair_lt_pairs { pair.0 < pairs }
    ensures { (result ≡ weight_of (weights_of s.now) pair.0) × (nat_abs result ≤ limit) }
{
    signed_of(u32_at(s, 7 + 4 * (pair.0 as usize)))
}
