// A net that a call takes as an argument: the shape of an accepted sheet, or its refusal.
#![tactic(auto)]

pub mod arcs;
mod bytes;
pub mod dead;
pub mod finite;
mod groups;
pub mod list;
pub mod listed;
pub mod open;
mod rule;
pub mod shape;
pub mod size;
pub mod starts;

ghost use Rattle.std.specs.Prelude.{◌≡◌, MatchResult};
ghost use Rattle.std.proofs.Math.Option.{none, some};
ghost use Rattle.sheets.specs.Whole.{whole_net};

use crate::open::OpenNet;
use crate::shape::shape_of;
use model::Refusal;
use sheets::whole::whole_net;

pub fn open_net(s: &[u8]) -> Result<OpenNet, Refusal>
    ensures { MatchResult result (λ net. (whole_net s.now ≡ none) × (net.sheet.now ≡ s.now)) (λ r. whole_net s.now ≡ some r) }
{
    whole_net(s)?;
    Ok(OpenNet {
        sheet: s,
        shape: shape_of(s),
    })
}
