// Import's first pass (document 02, P5): whether a text is an export, "at the first byte (or the end) from which no export agrees with the text".
pub mod arc;
pub mod head;
pub mod line;
pub mod lines;
pub mod states;

ghost use Rattle.pnml.specs.Pnml.{opening};
ghost use Rattle.grammar.specs.parts.Parts.{Compares};
ghost use Rattle.import.specs.scan.Kinds.{CheckAllows};

use crate::scan::lines::read_lines;
use grammar::State;
use grammar::parts::Literal;
use grammar::parts::constant::compare;
use pnml::OPENING;

// What a line begins with.
#[derive(Clone, Copy)]
pub(crate) enum Kind {
    Close,
    Place,
    Transition,
    Pre,
    Post,
}

// A kind of line and where its head ends, or the farthest position that a head goes to.
pub(crate) type Headed = Result<(Kind, usize), usize>;

// The pair, the weight and the end of an arc's line, or where none goes on so.
pub(crate) type Arced = Result<(u32, u32, usize), usize>;

// A line or the closing, and where it ends.
#[derive(Clone, Copy)]
pub(crate) enum Step {
    Placed(u32, usize),
    Begun(usize),
    PreArc(u32, u32, usize),
    PostArc(u32, u32, usize),
    Closed(usize),
}

// The state after a line, or none after the closing, and where it ends; or where no line goes on so.
pub(crate) type Moved = Result<(Option<State>, usize), usize>;

pub(crate) fn compare_opening(s: &[u8]) -> Literal
    ensures { Compares s.now 0 opening result }
{
    compare(s, 0, &OPENING)
}

// An export's counts, or the first byte (or the end) from which no export agrees with the text.
pub(crate) fn check_text(s: &[u8]) -> Result<State, usize>
    ensures { CheckAllows s.now result }
{
    let first = compare_opening(s)?;
    let (q, next) = read_lines(s, first)?;
    if next < s.len() {
        return Err(next);
    }
    Ok(q)
}
