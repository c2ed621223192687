// The arcs of an export: those of a mode stand after its transition, and a Post line of the pair in hand belongs to the arc of its Pre line.
ghost use Rattle.std.specs.Prelude.{◌+◌, ◌*◌, ◌≤◌, ◌<◌, length};
ghost use Rattle.model.specs.declared.Version.TheVariants.{One};
ghost use Rattle.sheets.specs.written.Written.{arc_bytes};
ghost use Rattle.sheets.specs.written.Puts.{Put};
ghost use Rattle.grammar.specs.Gathered.{arc};
ghost use Rattle.import.specs.scan.Kinds.{Sound, ExportOf};
ghost use Rattle.import.specs.Parts.{Ready, PostPut, PostRoom, WriteAllows, ArcsFollow, ArcsPut};

use crate::Wrote;
use crate::scan::Step;
use crate::scan::line::read_line;
use crate::scan::states::{after_mode, after_post, after_pre};
use grammar::State;
use sheets::written::{put16, put32};

// An arc without an inhibitor, as version 1 has it.
fn put_arc(out: &mut [u8], at: usize, mode: u32, pair: u32, pre: u32, post: u32) -> usize
    requires { (at + 16 ≤ length out.old) × (mode < 65536) × (pair < 65536) }
    ensures { Put out.old at 16 (arc_bytes One (arc mode pair pre post)) out.new result }
{
    let to_pair = put16(out, at, mode as u16);
    let to_pre = put16(out, to_pair, pair as u16);
    let to_post = put32(out, to_pre, pre);
    let to_inhibitor = put32(out, to_post, post);
    put32(out, to_inhibitor, 0xffff_ffff)
}

// The Post of the arc in hand stands 8 bytes before the end of what has been written.
fn put_post(out: &mut [u8], at: usize, q: State, pair: u32, post: u32) -> usize
    requires sound { Sound q × (1 ≤ q.modes) × (pair < 256) }
    requires post_room { PostRoom q pair out.old at }
    ensures { PostPut q pair post out.old at out.new result }
{
    if pair < q.low {
        put32(out, at - 8, post);
        return at;
    }
    put_arc(out, at, q.modes - 1, pair, 0, post)
}

fn write_line(s: &[u8], at: usize, q: State, out: &mut [u8], next: usize) -> Wrote
    requires { Ready s.now q at out.old next }
    ensures { WriteAllows s.now q at out.old next out.new result }
{
    let step = read_line(s, at, q).ok()?;
    match step {
        Step::Begun(read) => Some((after_mode(q), read, next)),
        Step::PreArc(pair, weight, read) => {
            let end = put_arc(out, next, q.modes - 1, pair, weight, 0);
            Some((after_pre(q, pair, weight), read, end))
        }
        Step::PostArc(pair, weight, read) => {
            let end = put_post(out, next, q, pair, weight);
            Some((after_post(q, pair, weight), read, end))
        }
        _ => None,
    }
}

// The text is an export of q's counts, and `first` the place after its places.
pub(crate) fn put_arcs(s: &[u8], q: State, first: usize, out: &mut [u8], at: usize) -> usize
    requires export_of { ExportOf s.now q }
    requires arcs_follow { ArcsFollow s.now q.places first }
    requires arcs_in_bounds { at + 16 * q.arcs ≤ length out.old }
    ensures { ArcsPut s.now out.old at out.new result }
{
    let mut state = State {
        places: q.places,
        modes: 0,
        arcs: 0,
        low: 0,
        half: false,
    };
    let mut read = first;
    let mut next = at;
    while let Some((after, end, to)) = write_line(s, read, state, out, next) {
        state = after;
        read = end;
        next = to;
    }
    next
}
