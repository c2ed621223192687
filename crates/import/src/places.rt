// The places of an export, each a pair: K is unbounded, and its count is the first marking's.
ghost use Rattle.std.specs.Prelude.{◌+◌, ◌*◌, ◌≤◌, length};
ghost use Rattle.import.specs.scan.Kinds.{ExportOf};
ghost use Rattle.import.specs.Parts.{PlaceReady, PlaceAllows, PlacesPut};

use crate::Wrote;
use crate::scan::Step;
use crate::scan::line::read_line;
use crate::scan::states::after_place;
use grammar::State;
use pnml::OPENING;
use sheets::written::put_pair;

// Where the text has been read to, and the sheet written to.
#[derive(Clone, Copy)]
pub(crate) struct Places {
    pub read: usize,
    pub next: usize,
}

fn write_place(s: &[u8], at: usize, q: State, out: &mut [u8], next: usize) -> Wrote
    requires { PlaceReady s.now q at out.old next }
    ensures { PlaceAllows s.now q at out.old next out.new result }
{
    let step = read_line(s, at, q).ok()?;
    let Step::Placed(count, read) = step else {
        return None;
    };
    let end = put_pair(out, next, 0xffff_ffff, count);
    Some((after_place(q, count), read, end))
}

// The text is an export of q's counts: after its opening all its places follow.
pub(crate) fn put_places(s: &[u8], q: State, out: &mut [u8], at: usize) -> Places
    requires export_of { ExportOf s.now q }
    requires places_in_bounds { at + 8 * q.places ≤ length out.old }
    ensures { PlacesPut s.now q.places out.old at out.new result.read result.next }
{
    let mut state = State {
        places: 0,
        modes: 0,
        arcs: 0,
        low: 0,
        half: false,
    };
    let mut read = OPENING.len();
    let mut next = at;
    while let Some((after, end, to)) = write_place(s, read, state, out, next) {
        state = after;
        read = end;
        next = to;
    }
    Places { read, next }
}
