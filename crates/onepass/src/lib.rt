// Firing a mode in one pass writes arc by arc: where an arc does not let its mode pass, what those before it have written is taken back.
#![tactic(auto)]

ghost use Rattle.std.specs.Prelude.{◌≡◌, List, ℕ};
ghost use Rattle.sheets.specs.Decoded.{net_of};
ghost use Rattle.opened.specs.Starts.{ModeArcs};
ghost use Rattle.onepass.specs.OnePass.{PassedAndWritten};

use opened::arcs::arc;
use opened::open::OpenNet;
use opened::starts::Segment;

// Takes back what the first `written` arcs of a mode have written, the last first: whatever marking they let the mode pass at is there again.
pub fn take_back(net: &OpenNet, arcs: Segment, written: usize, marking: &mut [u32])
    requires mode_arcs { ModeArcs (net_of net.now.sheet.now).arcs arcs.mode arcs.start arcs.count }
    requires by_index { (m : List ℕ) × PassedAndWritten (net_of net.now.sheet.now) arcs written m marking.old }
    ensures { (m : List ℕ) → PassedAndWritten (net_of net.now.sheet.now) arcs written m marking.old → marking.new ≡ m }
{
    for i in (0..written).rev() {
        let arc = arc(net, arcs, i);
        let p = arc.pair.0 as usize;
        marking[p] = marking[p] - arc.post + arc.pre;
    }
}
