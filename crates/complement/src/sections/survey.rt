// Before anything is written: one pass over the arcs for the dead modes and for 15; how many arcs the complement has is counted only where it is asked.
ghost use Rattle.std.specs.Prelude.{◌≡◌, true, false, not, ◌&&◌, ◌++◌, ◌+◌, ◌*◌, ◌≤◌, length};
ghost use Rattle.model.specs.Numbers.{limit};
ghost use Rattle.model.specs.declared.CapacityRule.TheVariants.{Strong};
ghost use Rattle.second_form.specs.Dead.{kills as kills_here, is_dead};
ghost use Rattle.second_form.specs.Complement.{finite, complement};
ghost use Rattle.fields.specs.Numbers.{bound};
ghost use Rattle.sheets.specs.Decoded.{net_of, net_arc};
ghost use Rattle.opened.specs.Starts.{StartsAre, ModeArcs, OwnArc};
ghost use Rattle.halves.specs.declared.half.Half.TheVariants.{Original, Complement};
ghost use Rattle.complement.specs.sections.DeadModes.{DeadAre};
ghost use Rattle.complement.specs.sections.Arcs.{kept, half_arc, row_arcs, clear_at, every};

use crate::sections::arcs::half_arc;
use crate::sections::bounded::Bounded;
use crate::sections::entry::is_blank;
use halves::half::Half;
use model::{Arc, Mode};
use opened::arcs::arc;
use opened::dead::kills;
use opened::finite::is_finite;
use opened::open::OpenNet;
use opened::shape::capacity;
use opened::starts::{Segment, arcs_of};

// Whether 15 stops no arc of a mode, and whether the mode is dead.
#[derive(Clone, Copy)]
struct Faults {
    clear: bool,
    dead: bool,
}

// 15 does not stop the i-th arc of a mode: it has a finite K or no finite I.
fn arc_clear(net: &OpenNet, arcs: Segment, i: usize) -> bool
    requires own_arc { OwnArc (net_of net.now.sheet.now).arcs arcs i }
    ensures { result ≡ clear_at (net_of net.now.sheet.now) (arcs.start + i) }
{
    let a = arc(net, arcs, i);
    is_finite(capacity(net, a.pair)) || !is_finite(a.inhibitor)
}

// Arc by arc, where some arc of the mode is not plain.
fn find_faults(net: &OpenNet, arcs: Segment) -> Faults
    requires mode_arcs { ModeArcs (net_of net.now.sheet.now).arcs arcs.mode arcs.start arcs.count }
    ensures { (result.clear ≡ every arcs.count (λ i. clear_at (net_of net.now.sheet.now) (arcs.start + i))) × (result.dead ≡ is_dead (net_of net.now.sheet.now) arcs.mode) }
{
    let mut clear = true;
    let mut dead = false;
    for i in 0..arcs.count {
        clear &= arc_clear(net, arcs, i);
        dead |= kills(net, arc(net, arcs, i));
    }
    Faults { clear, dead }
}

// An arc that by no rule makes its mode dead, and that 15 does not stop.
fn is_plain(most: u32, arc: Arc) -> bool
    requires { (arc.pre ≤ limit) × (arc.post ≤ limit) }
    ensures { result ≡ true → (kills_here Strong (net_arc arc).entry (bound most) ≡ false) × (finite (bound arc.inhibitor) && not (finite (bound most)) ≡ false) }
{
    arc.pre <= arc.inhibitor
        && arc.pre + arc.post <= most
        && (is_finite(most) || !is_finite(arc.inhibitor))
}

fn all_plain(net: &OpenNet, arcs: Segment) -> bool
    requires mode_arcs { ModeArcs (net_of net.now.sheet.now).arcs arcs.mode arcs.start arcs.count }
    ensures { result ≡ true → (true ≡ every arcs.count (λ i. clear_at (net_of net.now.sheet.now) (arcs.start + i))) × (false ≡ is_dead (net_of net.now.sheet.now) arcs.mode) }
{
    for i in 0..arcs.count {
        let here = arc(net, arcs, i);
        if !is_plain(capacity(net, here.pair), here) {
            return false;
        }
    }
    true
}

// Few modes have an arc that is not plain.
fn survey_mode(net: &OpenNet, arcs: Segment) -> Faults
    requires mode_arcs { ModeArcs (net_of net.now.sheet.now).arcs arcs.mode arcs.start arcs.count }
    ensures { (result.clear ≡ every arcs.count (λ i. clear_at (net_of net.now.sheet.now) (arcs.start + i))) × (result.dead ≡ is_dead (net_of net.now.sheet.now) arcs.mode) }
{
    if all_plain(net, arcs) {
        return Faults {
            clear: true,
            dead: false,
        };
    }
    find_faults(net, arcs)
}

// Whether 15 stops no arc; the table gets which modes are dead.
pub(crate) fn survey(net: &OpenNet, starts: &[u16; 257], dead: &mut [bool; 256]) -> bool
    requires starts_are { StartsAre (net_of net.now.sheet.now).arcs starts.now }
    requires dead_len { length dead.old ≡ 256 }
    ensures { (result ≡ every (length (net_of net.now.sheet.now).arcs) (clear_at (net_of net.now.sheet.now))) × DeadAre (net_of net.now.sheet.now) dead.new }
{
    let mut clear = true;
    for t in 0..net.shape.modes {
        let one = survey_mode(net, arcs_of(net, starts, Mode(t as u16)));
        clear &= one.clear;
        dead[t] = one.dead;
    }
    clear
}

// "Blank arcs are left out."
fn count_kept(arc: Arc) -> usize
    ensures { (result ≡ length (kept (net_arc arc))) × (result ≤ 1) }
{
    usize::from(!is_blank(arc))
}

// How many arcs the i-th of a mode becomes.
fn count_halves(bounded: &Bounded, dead: bool, arcs: Segment, i: usize) -> usize
    requires own_arc { OwnArc (net_of bounded.now.net.now.sheet.now).arcs arcs i }
    requires dead_value { dead ≡ is_dead (net_of bounded.now.net.now.sheet.now) arcs.mode }
    ensures { (result ≡ length (kept (half_arc (net_of bounded.now.net.now.sheet.now) Original (arcs.start + i)) ++ kept (half_arc (net_of bounded.now.net.now.sheet.now) Complement (arcs.start + i)))) × (result ≤ 2) }
{
    let original = half_arc(bounded, dead, Half::Original, arcs, i);
    let complement = half_arc(bounded, dead, Half::Complement, arcs, i);
    count_kept(original) + count_kept(complement)
}

// How many arcs a mode has in the complement.
fn count_mode(bounded: &Bounded, dead: bool, arcs: Segment) -> usize
    requires mode_arcs { ModeArcs (net_of bounded.now.net.now.sheet.now).arcs arcs.mode arcs.start arcs.count }
    requires dead_value { dead ≡ is_dead (net_of bounded.now.net.now.sheet.now) arcs.mode }
    ensures { (result ≡ length (row_arcs (net_of bounded.now.net.now.sheet.now) arcs.mode.0)) × (result ≤ 2 * arcs.count) }
{
    let mut count = 0;
    for i in 0..arcs.count {
        count += count_halves(bounded, dead, arcs, i);
    }
    count
}

pub(crate) fn count_arcs(bounded: &Bounded, starts: &[u16; 257], dead: &[bool; 256]) -> usize
    requires starts_are { StartsAre (net_of bounded.now.net.now.sheet.now).arcs starts.now }
    requires dead_are { DeadAre (net_of bounded.now.net.now.sheet.now) dead.now }
    ensures { (result ≡ length (complement (net_of bounded.now.net.now.sheet.now)).arcs) × (result ≤ 4096) }
{
    let mut count = 0;
    for t in 0..bounded.net.shape.modes {
        count += count_mode(
            bounded,
            dead[t],
            arcs_of(bounded.net, starts, Mode(t as u16)),
        );
    }
    count
}
