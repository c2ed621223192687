// Proof that a state can't happen: weights that show a claimed marking to be out of reach (document 02, P8).
// What the call answers is said in specs/exclude/Calls.antt.
ghost use Rattle.std.specs.Prelude.{◌≡◌};
ghost use Rattle.model.specs.First.{◌▸◌};
ghost use Rattle.model.specs.Refusals.{answer};
ghost use Rattle.model.specs.Nets.{pairs as pairs_of};
ghost use Rattle.model.specs.Markings.{marking_refusal};
ghost use Rattle.movement.specs.Exclusion.{claim_refusal};
ghost use Rattle.sheets.specs.Whole.{whole_weights};
ghost use Rattle.sheets.specs.Decoded.{net_of, weights_of};
ghost use Rattle.statement.specs.exclude.Allowed.{ExcludeAllows};

use crate::exclude::claim::claim_answer;
use fire::marking::marking_answer;
use model::Answer;
use opened::open::OpenNet;
use opened::open_net;
use sheets::whole::whole_weights;

mod claim;

fn exclude_open(net: &OpenNet, weights: &[u8], claim: &[u32]) -> Answer
    ensures { result ≡ answer (whole_weights (pairs_of (net_of net.now.sheet.now)) weights.now ▸ marking_refusal (net_of net.now.sheet.now) claim.now ▸ claim_refusal (net_of net.now.sheet.now) (weights_of weights.now) claim.now) }
{
    whole_weights(weights, net.shape.pairs)?;
    marking_answer(net, claim)?;
    claim_answer(net, weights, claim)
}

// Whether the weights show that no list of movements leads from the first marking to the claim.
pub fn exclude(net: &[u8], weights: &[u8], claim: &[u32]) -> Answer
    ensures { ExcludeAllows net.now weights.now claim.now result }
{
    let net = open_net(net)?;
    exclude_open(&net, weights, claim)
}
