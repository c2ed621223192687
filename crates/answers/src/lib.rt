// What a call tells C, as structs by value: document 01's number, thing and position, document 02's amount, and the value, 0 where a refused call has none.
#![tactic(auto)]

ghost use Rattle.std.specs.Prelude.{◌≡◌, Ok, Err};
ghost use Rattle.std.proofs.Math.Option.{none};
ghost use Rattle.sheets.specs.Emitted.{told as emitted_told};
ghost use Rattle.complement.specs.audit.Audits.{told as audit_told};
ghost use Rattle.opened.specs.dead.FirstDead.{told as first_dead_told};
ghost use Rattle.opened.specs.dead.IsDead.{told as deadness_told};
ghost use Rattle.run.specs.salvage.Salvaged.{told as salvage_told};
ghost use Rattle.opened.specs.size.Sizes.{told as measured_told};
ghost use Rattle.statement.specs.weigh.Calls.{told as figured_told};
ghost use Rattle.answers.specs.Told.{answered, counted, weighed, decided, naming, named, sized, finding, audited, reported};

use model::{Answer, Mode, Pair, Refusal};
use opened::size::NetSize;
use run::salvage::Report;
use statement::told::{line_of, thing_of};

#[repr(C)]
#[derive(Clone, Copy)]
pub struct Answered {
    pub number: u64,
    pub thing: u64,
    pub position: u64,
    pub amount: u64,
}

// How many bytes.
#[repr(C)]
#[derive(Clone, Copy)]
pub struct Counted {
    pub answer: Answered,
    pub value: u64,
}

// How many movements were accepted, and how many arcs were visited.
#[repr(C)]
#[derive(Clone, Copy)]
pub struct Tallied {
    pub answer: Answered,
    pub accepted: u64,
    pub arcs: u64,
}

// Kilograms.
#[repr(C)]
#[derive(Clone, Copy)]
pub struct Weighed {
    pub answer: Answered,
    pub value: i64,
}

// Yes or no.
#[repr(C)]
#[derive(Clone, Copy)]
pub struct Decided {
    pub answer: Answered,
    pub value: bool,
}

// A mode and a pair, where there is one.
#[repr(C)]
#[derive(Clone, Copy)]
pub struct Named {
    pub answer: Answered,
    pub found: bool,
    pub mode: Mode,
    pub pair: Pair,
}

// How many pairs, modes and arcs.
#[repr(C)]
#[derive(Clone, Copy)]
pub struct Sized {
    pub answer: Answered,
    pub pairs: u64,
    pub modes: u64,
    pub arcs: u64,
}

// A pair and its excess, where there is one.
#[repr(C)]
#[derive(Clone, Copy)]
pub struct Audited {
    pub answer: Answered,
    pub found: bool,
    pub pair: Pair,
    pub excess: i64,
}

// How long the fresh sheet is, how many movements it keeps and how many were dropped, and the answer to the first of these.
#[repr(C)]
#[derive(Clone, Copy)]
pub struct Reported {
    pub answer: Answered,
    pub length: u64,
    pub kept: u64,
    pub dropped: u64,
    pub stop: Answered,
}

fn accepted() -> Answered
    ensures { result ≡ answered (Ok tt) }
{
    Answered {
        number: 0,
        thing: 0,
        position: 0,
        amount: 0,
    }
}

fn refused(refusal: Refusal) -> Answered
    ensures { result ≡ answered (Err refusal) }
{
    let line = line_of(refusal.fault);
    Answered {
        number: line.number,
        thing: thing_of(refusal),
        position: line.position,
        amount: line.amount,
    }
}

impl From<Answer> for Answered {
    ghost from_gives = { λ answer told. told ≡ answered answer };

    fn from(answer: Answer) -> Answered {
        match answer {
            Ok(()) => accepted(),
            Err(refusal) => refused(refusal),
        }
    }
}

// How many bytes a call wrote, or why none.
impl From<Result<usize, Refusal>> for Counted {
    ghost from_gives = { λ emitted told. told ≡ counted (emitted_told emitted) };

    fn from(emitted: Result<usize, Refusal>) -> Counted {
        match emitted {
            Ok(length) => Counted {
                answer: accepted(),
                value: length as u64,
            },
            Err(refusal) => Counted {
                answer: refused(refusal),
                value: 0,
            },
        }
    }
}

impl From<Result<i64, Refusal>> for Weighed {
    ghost from_gives = { λ figured told. told ≡ weighed (figured_told figured) };

    fn from(figured: Result<i64, Refusal>) -> Weighed {
        match figured {
            Ok(kilograms) => Weighed {
                answer: accepted(),
                value: kilograms,
            },
            Err(refusal) => Weighed {
                answer: refused(refusal),
                value: 0,
            },
        }
    }
}

impl From<Result<bool, Refusal>> for Decided {
    ghost from_gives = { λ deadness told. told ≡ decided (deadness_told deadness) };

    fn from(deadness: Result<bool, Refusal>) -> Decided {
        match deadness {
            Ok(dead) => Decided {
                answer: accepted(),
                value: dead,
            },
            Err(refusal) => Decided {
                answer: refused(refusal),
                value: false,
            },
        }
    }
}

// No mode and no pair: numbers 0, which say nothing.
fn nothing_found(answer: Answered) -> Named
    ensures { result ≡ naming answer none }
{
    Named {
        answer,
        found: false,
        mode: Mode(0),
        pair: Pair(0),
    }
}

impl From<Result<Option<(Mode, Pair)>, Refusal>> for Named {
    ghost from_gives = { λ first told. told ≡ named (first_dead_told first) };

    fn from(first: Result<Option<(Mode, Pair)>, Refusal>) -> Named {
        match first {
            Ok(Some((mode, pair))) => Named {
                answer: accepted(),
                found: true,
                mode,
                pair,
            },
            Ok(None) => nothing_found(accepted()),
            Err(refusal) => nothing_found(refused(refusal)),
        }
    }
}

impl From<Result<NetSize, Refusal>> for Sized {
    ghost from_gives = { λ measured told. told ≡ sized (measured_told measured) };

    fn from(measured: Result<NetSize, Refusal>) -> Sized {
        match measured {
            Ok(size) => Sized {
                answer: accepted(),
                pairs: size.pairs as u64,
                modes: size.modes as u64,
                arcs: size.arcs as u64,
            },
            Err(refusal) => Sized {
                answer: refused(refusal),
                pairs: 0,
                modes: 0,
                arcs: 0,
            },
        }
    }
}

// No pair and no excess: numbers 0, which say nothing.
fn none_out(answer: Answered) -> Audited
    ensures { result ≡ finding answer none }
{
    Audited {
        answer,
        found: false,
        pair: Pair(0),
        excess: 0,
    }
}

impl From<Result<Option<(Pair, i64)>, Refusal>> for Audited {
    ghost from_gives = { λ found told. told ≡ audited (audit_told found) };

    fn from(found: Result<Option<(Pair, i64)>, Refusal>) -> Audited {
        match found {
            Ok(Some((pair, excess))) => Audited {
                answer: accepted(),
                found: true,
                pair,
                excess,
            },
            Ok(None) => none_out(accepted()),
            Err(refusal) => none_out(refused(refusal)),
        }
    }
}

impl From<Result<Report, Refusal>> for Reported {
    ghost from_gives = { λ salvaged told. told ≡ reported (salvage_told salvaged) };

    fn from(salvaged: Result<Report, Refusal>) -> Reported {
        match salvaged {
            Ok(report) => Reported {
                answer: accepted(),
                length: report.length as u64,
                kept: report.kept as u64,
                dropped: report.dropped as u64,
                stop: report.stop.into(),
            },
            Err(refusal) => Reported {
                answer: refused(refusal),
                length: 0,
                kept: 0,
                dropped: 0,
                stop: accepted(),
            },
        }
    }
}
