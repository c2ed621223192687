// One line of a text, by what stands before it.
ghost use Rattle.std.specs.Prelude.{◌≡◌, true, ◌≤◌, ◌<◌, length};
ghost use Rattle.grammar.specs.parts.Parts.{Reads, Within, valued};
ghost use Rattle.import.specs.declared.scan.Kind.TheVariants.{Place, Transition, Pre, Post};
ghost use Rattle.import.specs.scan.Kinds.{possible, Sound, place_start, place_tail, StepAllows, RestAllows};

use crate::scan::arc::read_arc;
use crate::scan::head::read_head;
use crate::scan::states::{from_post, up_to};
use crate::scan::{Kind, Step};
use grammar::State;
use grammar::parts::Numbered;
use grammar::parts::constant::{then_bytes, then_three};
use grammar::parts::valued::read_valued;
use pnml::{FIRST_MARKING, PLACE_END, TRANSITION_END};

fn read_place(s: &[u8], at: usize, places: u32) -> Numbered
    requires { (at ≤ length s.now) × (places < 1000) }
    ensures { Reads (Within 0) (valued (place_start places) place_tail) s.now at result }
{
    let number = then_three(s, Ok(at), places);
    let before = then_bytes(s, number, &FIRST_MARKING);
    read_valued(s, before, 0, &PLACE_END)
}

fn place_step(s: &[u8], at: usize, q: State) -> Result<Step, usize>
    requires { (at ≤ length s.now) × Sound q }
    ensures { RestAllows q Place s.now at result }
{
    let (count, next) = read_place(s, at, q.places)?;
    Ok(Step::Placed(count, next))
}

fn mode_step(s: &[u8], at: usize, q: State) -> Result<Step, usize>
    requires { (at ≤ length s.now) × Sound q }
    ensures { RestAllows q Transition s.now at result }
{
    let number = then_three(s, Ok(at), q.modes);
    let next = then_bytes(s, number, &TRANSITION_END)?;
    Ok(Step::Begun(next))
}

fn pre_step(s: &[u8], at: usize, q: State) -> Result<Step, usize>
    requires { (at ≤ length s.now) × Sound q × (possible q Pre ≡ true) }
    ensures { RestAllows q Pre s.now at result }
{
    let (pair, weight, next) = read_arc(s, at, q.modes - 1, q.low, up_to(q), true)?;
    Ok(Step::PreArc(pair, weight, next))
}

fn post_step(s: &[u8], at: usize, q: State) -> Result<Step, usize>
    requires { (at ≤ length s.now) × Sound q × (possible q Post ≡ true) }
    ensures { RestAllows q Post s.now at result }
{
    let (pair, weight, next) = read_arc(s, at, q.modes - 1, from_post(q), up_to(q), false)?;
    Ok(Step::PostArc(pair, weight, next))
}

fn read_rest(s: &[u8], at: usize, q: State, kind: Kind) -> Result<Step, usize>
    requires { (at ≤ length s.now) × Sound q × (possible q kind ≡ true) }
    ensures { RestAllows q kind s.now at result }
{
    match kind {
        Kind::Close => Ok(Step::Closed(at)),
        Kind::Place => place_step(s, at, q),
        Kind::Transition => mode_step(s, at, q),
        Kind::Pre => pre_step(s, at, q),
        Kind::Post => post_step(s, at, q),
    }
}

pub(crate) fn read_line(s: &[u8], at: usize, q: State) -> Result<Step, usize>
    requires { (at ≤ length s.now) × Sound q }
    ensures { StepAllows q s.now at result }
{
    let (kind, next) = read_head(s, at, q)?;
    read_rest(s, next, q, kind)
}
