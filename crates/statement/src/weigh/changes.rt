// The weight changes of all modes of a net, for a caller that needs them again and again.
ghost use Rattle.std.specs.Prelude.{◌≡◌, length};
ghost use Rattle.std.proofs.Math.Option.{none};
ghost use Rattle.sheets.specs.lists.Weights.{weights_refusal};
ghost use Rattle.sheets.specs.Decoded.{net_of, weights_of};
ghost use Rattle.opened.specs.Starts.{StartsAre};
ghost use Rattle.statement.specs.weigh.Parts.{ChangesAre};

use crate::weigh::sums::change_of;
use model::Mode;
use opened::open::OpenNet;

// Entry t is what mode t changes. Written into a table that is lent, so that it stands on the stack once.
pub fn write_changes(net: &OpenNet, starts: &[u16; 257], weights: &[u8], changes: &mut [i64])
    requires starts_are { StartsAre (net_of net.now.sheet.now).arcs starts.now }
    requires weights_value { weights_refusal net.now.shape.pairs weights.now ≡ none }
    requires changes_len { length changes.old ≡ 256 }
    ensures { ChangesAre (net_of net.now.sheet.now) (weights_of weights.now) changes.new }
{
    for t in 0..net.shape.modes {
        changes[t] = change_of(net, starts, weights, Mode(t as u16));
    }
}
