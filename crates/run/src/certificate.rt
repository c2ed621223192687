// A certificate once both sheets are accepted: 17 for the claim, the run from the first marking, 18.
ghost use Rattle.std.specs.Prelude.{◌≡◌, ◌<◌, ◌≤◌, length};
ghost use Rattle.std.proofs.Math.Option.{none};
ghost use Rattle.model.specs.First.{first};
ghost use Rattle.model.specs.Refusals.{answer};
ghost use Rattle.movement.specs.Runs.{certificate_refusal};
ghost use Rattle.sheets.specs.Decoded.{net_of, movements_of};
ghost use Rattle.movement.specs.Runs.{elsewhere, ends_at};

use crate::movements::run_listed;
use fire::start::write_start;
use heads::head::refused;
use model::{Answer, Fault, Pair, Thing};
use opened::list::MovementList;
use opened::open::OpenNet;
use opened::starts::starts;

fn pair_answer(last: &[u32], claim: &[u32], p: usize) -> Answer
    requires { (p < length last.now) × (p < length claim.now) × (p < 256) }
    ensures { result ≡ answer (elsewhere last.now claim.now p) }
{
    if last[p] != claim[p] {
        return refused(Thing::Argument, Fault::EndsElsewhere(Pair(p as u16)));
    }
    Ok(())
}

// The claim's counts are compared, and not tested for their range.
fn compare(last: &[u32], claim: &[u32], pairs: usize) -> Answer
    requires { (length last.now ≡ pairs) × (length claim.now ≡ pairs) × (pairs ≤ 256) }
    ensures { result ≡ answer (first pairs (elsewhere last.now claim.now)) }
{
    for p in 0..pairs {
        pair_answer(last, claim, p)?;
    }
    Ok(())
}

// The run from the first marking, in counts of the call's own; with no table of numbers, which would not fit a certificate's stack.
fn end_answer(net: &OpenNet, movements: &MovementList, claim: &[u32], counts: &mut [u32]) -> Answer
    requires claim_len { (length claim.now ≡ net.now.shape.pairs) × (length counts.old ≡ net.now.shape.pairs) }
    ensures { result ≡ answer (ends_at (net_of net.now.sheet.now) (movements_of movements.now.sheet.now) claim.now) }
{
    write_start(net, counts);
    let starts = starts(net);
    run_listed(net, &starts, &[], movements, counts).answer?;
    compare(counts, claim, net.shape.pairs)
}

pub(crate) fn certificate_answer(net: &OpenNet, movements: &MovementList, claim: &[u32]) -> Answer
    ensures { result ≡ answer (certificate_refusal (net_of net.now.sheet.now) (movements_of movements.now.sheet.now) claim.now) }
{
    if claim.len() != net.shape.pairs {
        return refused(Thing::Argument, Fault::NotOneEach(0));
    }
    let mut counts = [0u32; 256];
    end_answer(net, movements, claim, &mut counts[..net.shape.pairs])
}
