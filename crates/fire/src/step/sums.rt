// What a step has at each pair, in one pass over its members' arcs: Pre and Post summed, a repeat each time, and the least I.
ghost use Rattle.std.specs.Prelude.{◌<◌, length};
ghost use Rattle.model.specs.Nets.{pairs, row};
ghost use Rattle.sheets.specs.Decoded.{net_of, net_arc};
ghost use Rattle.opened.specs.Starts.{StartsAre, ModeArcs};
ghost use Rattle.fire.specs.step.Calls.{step_modes};
ghost use Rattle.fire.specs.step.Parts.{Members};
ghost use Rattle.fire.specs.step.Sums.{sums_at, Addable, Added, Below, AddedRow, SumsAre};

use crate::step::tables::Sums;
use model::{Arc, Mode};
use opened::arcs::arc;
use opened::open::OpenNet;
use opened::starts::{Segment, arcs_of, starts};

fn add_arc(arc: Arc, sums: &mut Sums)
    requires addable { Addable arc (sums_at sums.old) }
    ensures { Added (net_arc arc) (sums_at sums.old) (sums_at sums.new) }
{
    let p = arc.pair.0 as usize;
    sums.pre[p] += arc.pre;
    sums.post[p] += arc.post;
    sums.low[p] = sums.low[p].min(arc.inhibitor);
}

// The arcs of one member.
fn add_arcs(net: &OpenNet, arcs: Segment, sums: &mut Sums)
    requires mode_arcs { ModeArcs (net_of net.now.sheet.now).arcs arcs.mode arcs.start arcs.count }
    requires below { Below 63 (pairs (net_of net.now.sheet.now)) (sums_at sums.old) }
    ensures { AddedRow (pairs (net_of net.now.sheet.now)) (row (net_of net.now.sheet.now) arcs.mode) (sums_at sums.old) (sums_at sums.new) }
{
    for i in 0..arcs.count {
        add_arc(arc(net, arcs, i), sums);
    }
}

fn add_member(net: &OpenNet, starts: &[u16; 257], mode: Mode, sums: &mut Sums)
    requires starts_are { StartsAre (net_of net.now.sheet.now).arcs starts.now }
    requires mode_lt_modes { mode.0 < net.now.shape.modes }
    requires below { Below 63 (pairs (net_of net.now.sheet.now)) (sums_at sums.old) }
    ensures { AddedRow (pairs (net_of net.now.sheet.now)) (row (net_of net.now.sheet.now) mode) (sums_at sums.old) (sums_at sums.new) }
{
    add_arcs(net, arcs_of(net, starts, mode), sums)
}

pub(crate) fn sum_members(net: &OpenNet, modes: &[u16], sums: &mut Sums)
    requires members { Members net.now.shape.modes modes.now }
    requires sums_are { SumsAre (net_of net.now.sheet.now) (step_modes modes.now) 0 (sums_at sums.old) }
    ensures { SumsAre (net_of net.now.sheet.now) (step_modes modes.now) (length modes.now) (sums_at sums.new) }
{
    let starts = starts(net);
    for mode in modes {
        add_member(net, &starts, Mode(*mode), sums);
    }
}
