// The test of a marking that a call takes: one count for each pair (17), then pair by pair 5 before 9.
ghost use Rattle.std.specs.Prelude.{◌≡◌, ◌<◌, length};
ghost use Rattle.model.specs.First.{first};
ghost use Rattle.model.specs.Refusals.{answer};
ghost use Rattle.model.specs.Markings.{marking_refusal, count_at_refusal};
ghost use Rattle.sheets.specs.Decoded.{net_of};

use fields::numbers::above_bound;
use heads::head::refused;
use model::{Answer, Fault, Pair, Thing};
use opened::open::OpenNet;
use opened::shape::capacity;

fn count_answer(net: &OpenNet, p: usize, marking: &[u32]) -> Answer
    requires marking_len { (length marking.now ≡ net.now.shape.pairs) × (p < net.now.shape.pairs) }
    ensures { result ≡ answer (count_at_refusal (net_of net.now.sheet.now) marking.now p) }
{
    let pair = Pair(p as u16);
    let count = marking[p];
    if 1_000_000 < count {
        return refused(Thing::Argument, Fault::MarkingOutside(pair));
    }
    if above_bound(count, capacity(net, pair)) {
        return refused(Thing::Argument, Fault::MarkingAboveCapacity(pair));
    }
    Ok(())
}

fn each_count(net: &OpenNet, marking: &[u32]) -> Answer
    requires marking_len { length marking.now ≡ net.now.shape.pairs }
    ensures { result ≡ answer (first net.now.shape.pairs (count_at_refusal (net_of net.now.sheet.now) marking.now)) }
{
    for p in 0..net.shape.pairs {
        count_answer(net, p, marking)?;
    }
    Ok(())
}

pub fn marking_answer(net: &OpenNet, marking: &[u32]) -> Answer
    ensures { result ≡ answer (marking_refusal (net_of net.now.sheet.now) marking.now) }
{
    if marking.len() != net.shape.pairs {
        return refused(Thing::Argument, Fault::NotOneEach(0));
    }
    each_count(net, marking)
}
