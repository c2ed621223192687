// A claim once net, weights and claim are accepted: 21 with the first unbalanced mode, then 22 where the figures are equal.
ghost use Rattle.std.specs.Prelude.{◌≡◌, ◌<◌, length};
ghost use Rattle.std.proofs.Math.Option.{none};
ghost use Rattle.model.specs.First.{first};
ghost use Rattle.model.specs.Refusals.{answer};
ghost use Rattle.model.specs.Nets.{modes as modes_of};
ghost use Rattle.model.specs.Markings.{Marking};
ghost use Rattle.movement.specs.Exclusion.{unbalanced_at, same_figure, claim_refusal};
ghost use Rattle.sheets.specs.lists.Weights.{weights_refusal};
ghost use Rattle.sheets.specs.Decoded.{net_of, weights_of};
ghost use Rattle.opened.specs.Starts.{StartsAre};

use crate::weigh::sums::{change_of, figure_of};
use fire::start::write_start;
use heads::head::refused;
use model::{Answer, Fault, Mode, Thing};
use opened::open::OpenNet;
use opened::starts::starts;

fn mode_answer(net: &OpenNet, starts: &[u16; 257], weights: &[u8], t: usize) -> Answer
    requires starts_are { StartsAre (net_of net.now.sheet.now).arcs starts.now }
    requires weights_value { weights_refusal net.now.shape.pairs weights.now ≡ none }
    requires t_lt_modes { t < net.now.shape.modes }
    ensures { result ≡ answer (unbalanced_at (net_of net.now.sheet.now) (weights_of weights.now) t) }
{
    let mode = Mode(t as u16);
    if change_of(net, starts, weights, mode) != 0 {
        return refused(Thing::Net, Fault::Unbalanced(mode));
    }
    Ok(())
}

// Mode by mode, by the table of starts, up to the first unbalanced one: each arc is visited at most once.
fn each_mode(net: &OpenNet, weights: &[u8]) -> Answer
    requires weights_value { weights_refusal net.now.shape.pairs weights.now ≡ none }
    ensures { result ≡ answer (first (modes_of (net_of net.now.sheet.now)) (unbalanced_at (net_of net.now.sheet.now) (weights_of weights.now))) }
{
    let table = starts(net);
    for t in 0..net.shape.modes {
        mode_answer(net, &table, weights, t)?;
    }
    Ok(())
}

// The first marking is written into counts of the call's own.
fn compare_figures(net: &OpenNet, weights: &[u8], claim: &[u32], counts: &mut [u32]) -> Answer
    requires weights_value { weights_refusal net.now.shape.pairs weights.now ≡ none }
    requires marking { Marking (net_of net.now.sheet.now) claim.now }
    requires counts_len { length counts.old ≡ net.now.shape.pairs }
    ensures { result ≡ answer (same_figure (net_of net.now.sheet.now) (weights_of weights.now) claim.now) }
{
    write_start(net, counts);
    let first = figure_of(net, weights, counts);
    let claimed = figure_of(net, weights, claim);
    if claimed == first {
        return refused(Thing::Net, Fault::EqualFigures);
    }
    Ok(())
}

pub(crate) fn claim_answer(net: &OpenNet, weights: &[u8], claim: &[u32]) -> Answer
    requires weights_value { weights_refusal net.now.shape.pairs weights.now ≡ none }
    requires marking { Marking (net_of net.now.sheet.now) claim.now }
    ensures { result ≡ answer (claim_refusal (net_of net.now.sheet.now) (weights_of weights.now) claim.now) }
{
    each_mode(net, weights)?;
    let mut counts = [0u32; 256];
    compare_figures(net, weights, claim, &mut counts[..net.shape.pairs])
}
