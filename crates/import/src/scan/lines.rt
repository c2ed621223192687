// All lines of a text, one after the other.
ghost use Rattle.std.specs.Prelude.{◌≤◌, length};
ghost use Rattle.import.specs.scan.Kinds.{Sound, MoveAllows, LinesAllow};

use crate::scan::line::read_line;
use crate::scan::states::{after_mode, after_place, after_post, after_pre};
use crate::scan::{Moved, Step};
use grammar::State;

fn advance(s: &[u8], at: usize, q: State) -> Moved
    requires { (at ≤ length s.now) × Sound q }
    ensures { MoveAllows q s.now at result }
{
    let step = read_line(s, at, q)?;
    Ok(match step {
        Step::Placed(n, next) => (Some(after_place(q, n)), next),
        Step::Begun(next) => (Some(after_mode(q)), next),
        Step::PreArc(p, w, next) => (Some(after_pre(q, p, w)), next),
        Step::PostArc(p, w, next) => (Some(after_post(q, p, w)), next),
        Step::Closed(next) => (None, next),
    })
}

// The state after the last line and the position after the closing, or where no export agrees any more.
pub(crate) fn read_lines(s: &[u8], first: usize) -> Result<(State, usize), usize>
    requires { first ≤ length s.now }
    ensures { LinesAllow s.now first result }
{
    let mut at = first;
    let mut q = State {
        places: 0,
        modes: 0,
        arcs: 0,
        low: 0,
        half: false,
    };
    // No `for`: how many lines there are is not known before they are read.
    loop {
        let (after, next) = advance(s, at, q)?;
        let Some(state) = after else {
            return Ok((q, next));
        };
        q = state;
        at = next;
    }
}
