// Document 01's number, thing and position of a refusal, and document 02's amount.
ghost use Rattle.std.specs.Prelude.{◌≡◌, Err};
ghost use Rattle.model.specs.declared.Fault.TheVariants.{Stopped};
ghost use Rattle.model.specs.Refusals.{line, always_net, thing, thing_number};

use model::{Fault, Pair, Refusal, Thing, Why};

#[derive(Clone, Copy)]
pub struct Line {
    pub number: u64,
    pub position: u64,
    pub amount: u64,
}

fn says(number: u64, position: usize) -> Line
    ensures { (result.number ≡ number) × (result.position ≡ position) × (result.amount ≡ 0) }
{
    Line {
        number,
        position: position as u64,
        amount: 0,
    }
}

fn says_by(number: u64, pair: Pair, by: u32) -> Line
    ensures { (result.number ≡ number) × (result.position ≡ pair.0) × (result.amount ≡ by) }
{
    Line {
        number,
        position: u64::from(pair.0),
        amount: u64::from(by),
    }
}

// 11 to 14, at a pair and by how much.
fn stop_line(why: Why, pair: Pair, by: u32) -> Line
    ensures { (result.number ≡ (line (Stopped why pair by)).number) × (result.position ≡ (line (Stopped why pair by)).position) × (result.amount ≡ (line (Stopped why pair by)).amount) }
{
    match why {
        Why::Lacking => says_by(11, pair, by),
        Why::OverCapacity => says_by(12, pair, by),
        Why::Inhibited => says_by(13, pair, by),
        Why::OverLimit => says_by(14, pair, by),
    }
}

pub fn line_of(fault: Fault) -> Line
    ensures { (result.number ≡ (line fault).number) × (result.position ≡ (line fault).position) × (result.amount ≡ (line fault).amount) }
{
    match fault {
        Fault::CutShort => says(1, 0),
        Fault::WrongVersion(at) => says(2, at),
        Fault::WrongLength(at) => says(3, at),
        Fault::CountOutside(at) => says(4, at),
        Fault::NumberOutside(at) => says(5, at),
        Fault::MarkingOutside(pair) => says(5, pair.0 as usize),
        Fault::NotThereAt(at) => says(6, at),
        Fault::NotThere => says(6, 0),
        Fault::NotRising(at) => says(7, at),
        Fault::Blank(at) => says(8, at),
        Fault::StartAboveCapacity(at) => says(9, at),
        Fault::MarkingAboveCapacity(pair) => says(9, pair.0 as usize),
        Fault::NoRoom => says(10, 0),
        Fault::Stopped(why, pair, by) => stop_line(why, pair, by),
        Fault::InhibitedUnbounded(at) => says(15, at),
        Fault::NotOneEach(at) => says(17, at),
        Fault::EndsElsewhere(pair) => says(18, pair.0 as usize),
        Fault::NotUnbounded(at) => says(19, at),
        Fault::NotAnExport(at) => says(20, at),
        Fault::Unbalanced(mode) => says(21, mode.0 as usize),
        Fault::EqualFigures => says(22, 0),
        Fault::RuleLost => says(23, 0),
        Fault::FigurePast => says(24, 0),
        Fault::RecordOutside => says(25, 0),
    }
}

fn thing_number(thing: Thing) -> u64
    ensures { result ≡ thing_number thing }
{
    thing as u64
}

// "0 net, also for numbers 0, 10, 15, 16 and any above 18".
fn is_always_net(number: u64) -> bool
    ensures { result ≡ always_net number }
{
    matches!(number, 0 | 10 | 15 | 16) || 18 < number
}

pub fn thing_of(refusal: Refusal) -> u64
    ensures { result ≡ thing (Err refusal) }
{
    if is_always_net(line_of(refusal.fault).number) {
        0
    } else {
        thing_number(refusal.thing)
    }
}
