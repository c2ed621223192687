// Where the arcs of each mode stand: a movement visits its mode's arcs alone.
ghost use Rattle.std.specs.Prelude.{◌≡◌, ◌+◌, ◌≤◌, ◌<◌};
ghost use Rattle.model.specs.declared.Version.TheVariants.{One};
ghost use Rattle.model.specs.Nets.{arc_no};
ghost use Rattle.sheets.specs.Decoded.{net_of};
ghost use Rattle.opened.specs.Starts.{ModesBelow, FirstBetween, Narrower, FirstFrom, StartsAre, SegmentOf};

use crate::bytes::small_at;
use crate::groups::{arcs_before, group_end};
use crate::open::OpenNet;
use model::{Mode, Version};

// The arcs of a mode: `count` of them, in the order of the sheet. That they are a net's stands in clauses: a field for the net would lend it again wherever a net is lent too.
#[derive(Clone, Copy)]
pub struct Segment {
    pub mode: Mode,
    pub start: usize,
    pub count: usize,
}

// Version 1: the mode of the k-th arc, as a number.
fn arc_mode(net: &OpenNet, k: usize) -> usize
    requires version_value { net.now.shape.version ≡ One }
    requires k_lt_arcs { k < net.now.shape.arcs }
    ensures { result ≡ (arc_no (net_of net.now.sheet.now).arcs k).mode.0 }
{
    small_at(net.sheet, net.shape.arcs_at + 2 + 16 * k) as usize
}

// Version 1: the first arc whose mode is at least `t`, looked for from `k` on.
fn first_from(net: &OpenNet, t: usize, k: usize) -> usize
    requires version_value { net.now.shape.version ≡ One }
    requires k_le_arcs { k ≤ net.now.shape.arcs }
    requires modes_below { ModesBelow (net_of net.now.sheet.now).arcs t k }
    ensures { FirstFrom (net_of net.now.sheet.now).arcs t result }
{
    for i in k..net.shape.arcs {
        if t <= arc_mode(net, i) {
            return i;
        }
    }
    net.shape.arcs
}

// Where the arcs of mode t end, which start at k: the first arc of a later mode.
fn next_start(net: &OpenNet, t: usize, k: usize) -> usize
    requires t_lt_modes { t < net.now.shape.modes }
    requires first_from { FirstFrom (net_of net.now.sheet.now).arcs t k }
    ensures { FirstFrom (net_of net.now.sheet.now).arcs (t + 1) result }
{
    match net.shape.version {
        Version::One => first_from(net, t + 1, k),
        Version::Two => group_end(net.sheet, net.shape.arcs_at, t, k),
    }
}

// The table for a run: entry t is the first arc whose mode is at least t. From the last mode on there is none, so the table begins with that.
// It stays an array beside its net: two tables of one net would else lend the net twice.
pub fn starts(net: &OpenNet) -> [u16; 257]
    ensures { StartsAre (net_of net.now.sheet.now).arcs result }
{
    let modes = net.shape.modes;
    let mut table = [net.shape.arcs as u16; 257];
    let mut k = 0;
    for t in 0..modes {
        table[t] = k as u16;
        k = next_start(net, t, k);
    }
    table
}

// The arcs of a mode, by the table.
pub fn arcs_of(net: &OpenNet, starts: &[u16; 257], mode: Mode) -> Segment
    requires starts_are { StartsAre (net_of net.now.sheet.now).arcs starts.now }
    requires mode_lt_modes { mode.0 < net.now.shape.modes }
    ensures { SegmentOf (net_of net.now.sheet.now).arcs mode result }
{
    let t = mode.0 as usize;
    let start = starts[t] as usize;
    let end = starts[t + 1] as usize;
    Segment {
        mode,
        start,
        count: end - start,
    }
}

// Where the first arc whose mode is at least some `t` stands: not before `low`, and not after `high`.
#[derive(Clone, Copy)]
struct Span {
    low: usize,
    high: usize,
}

// The half of it in which that arc stands.
fn halve(net: &OpenNet, t: usize, span: Span) -> Span
    requires version_value { net.now.shape.version ≡ One }
    requires first_between { FirstBetween (net_of net.now.sheet.now).arcs t span }
    requires low_lt_high { span.low < span.high }
    ensures { Narrower (net_of net.now.sheet.now).arcs t span result }
{
    let middle = span.low + (span.high - span.low) / 2;
    if arc_mode(net, middle) < t {
        return Span {
            low: middle + 1,
            high: span.high,
        };
    }
    Span {
        low: span.low,
        high: middle,
    }
}

// Version 1: the first arc whose mode is at least `t`, by halves: arcs rise by mode.
fn search_first(net: &OpenNet, t: usize) -> usize
    requires version_value { net.now.shape.version ≡ One }
    ensures { FirstFrom (net_of net.now.sheet.now).arcs t result }
{
    let mut span = Span {
        low: 0,
        high: net.shape.arcs,
    };
    // No library search: the arcs stand in the sheet, and no list of them is made (no heap).
    while span.low < span.high {
        span = halve(net, t, span);
    }
    span.low
}

// Version 2 has no arc's mode to look at: the arcs of the modes below are counted.
fn find_start(net: &OpenNet, t: usize) -> usize
    requires t_lt_modes { t < net.now.shape.modes }
    ensures { FirstFrom (net_of net.now.sheet.now).arcs t result }
{
    match net.shape.version {
        Version::One => search_first(net, t),
        Version::Two => arcs_before(net.sheet, net.shape.arcs_at, t),
    }
}

// The arcs of a mode, looked for in the sheet: where one mode is all that a call asks of.
pub fn find_arcs(net: &OpenNet, mode: Mode) -> Segment
    requires mode_lt_modes { mode.0 < net.now.shape.modes }
    ensures { SegmentOf (net_of net.now.sheet.now).arcs mode result }
{
    let t = mode.0 as usize;
    let start = find_start(net, t);
    let end = next_start(net, t, start);
    Segment {
        mode,
        start,
        count: end - start,
    }
}
