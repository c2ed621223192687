// The kinds that every crate speaks of: numbers of PLACE and TRANS kept apart, arcs, and answers.
// Document 01's numbers for them are in specs/Refusals.antt.
#![tactic(auto)]

// A pair's number: a place with one of its colours, from PLACE (document 01, "Pairs, modes and the firing rule").
#[repr(C)]
#[derive(Clone, Copy)]
pub struct Pair(pub u16);

// A mode's number: a transition with one of its colours, from TRANS.
#[repr(C)]
#[derive(Clone, Copy)]
pub struct Mode(pub u16);

// An arc as a net sheet writes it: an inhibitor of 4,294,967,295 is unbounded.
#[derive(Clone, Copy)]
pub struct Arc {
    pub mode: Mode,
    pub pair: Pair,
    pub pre: u32,
    pub post: u32,
    pub inhibitor: u32,
}

// Which layout a net sheet has. "Only net sheets have a version 2." (document 02, P9)
#[derive(Clone, Copy)]
pub enum Version {
    One,
    Two,
}

// Which capacity rule a net has: document 01's own, or "the weak capacity rule" of document 02, P10.
#[derive(Clone, Copy)]
pub enum CapacityRule {
    Strong,
    Weak,
}

// "Rule byte 1 in version 2 means M + Post ≤ K + Pre" (document 02, P10)
impl From<CapacityRule> for u8 {
    ghost use Rattle.std.specs.Prelude.{◌≡◌};
    ghost use Rattle.model.specs.Nets.{rule_number};

    ghost from_gives = { λ rule byte. byte ≡ rule_number rule };

    fn from(rule: CapacityRule) -> u8 {
        match rule {
            CapacityRule::Strong => 0,
            CapacityRule::Weak => 1,
        }
    }
}

// Which thing was at fault: 0 to 3 of document 01, "Refusal numbers".
#[derive(Clone, Copy)]
pub enum Thing {
    Net,
    Weights,
    Movements,
    Argument,
}

// Why a mode may not fire: refusals 11 to 14, in the order in which they are looked for.
#[derive(Clone, Copy)]
pub enum Why {
    Lacking,
    OverCapacity,
    Inhibited,
    OverLimit,
}

// What is wrong: a case for each refusal number and kind of position. A usize is the offset of a byte; 11 to 14 say by how much. Number 16 is reserved and has no
// case: "show that 16 no longer occurs, and keep its number reserved" (document 02).
#[derive(Clone, Copy)]
pub enum Fault {
    CutShort,
    WrongVersion(usize),
    WrongLength(usize),
    CountOutside(usize),
    NumberOutside(usize),
    MarkingOutside(Pair),
    NotThereAt(usize),
    NotThere,
    NotRising(usize),
    Blank(usize),
    StartAboveCapacity(usize),
    MarkingAboveCapacity(Pair),
    NoRoom,
    Stopped(Why, Pair, u32),
    InhibitedUnbounded(usize),
    NotOneEach(usize),
    EndsElsewhere(Pair),
    NotUnbounded(usize),
    NotAnExport(usize),
    Unbalanced(Mode),
    EqualFigures,
    RuleLost,
    FigurePast,
    RecordOutside,
}

#[derive(Clone, Copy)]
pub struct Refusal {
    pub thing: Thing,
    pub fault: Fault,
}

// Accepted, or refused and why.
pub type Answer = Result<(), Refusal>;
