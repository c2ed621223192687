// Movements over a lent marking.
ghost use Rattle.abi.specs.Allowed.{BeginAllows, TestAllows, FireAllows, TestStepAllows, FireStepAllows, RunAllows, CertifyAllows};

use answers::{Answered, Tallied};
use fire::step::{fire_step, test_step};
use fire::{begin, fire, test};
use model::Mode;
use run::{certify, run};

pub fn pnet_begin(net: &[u8], marking: &mut [u32]) -> Answered
    ensures { BeginAllows net.now marking.old (result, marking.new) }
{
    begin(net, marking).into()
}

pub fn pnet_test(net: &[u8], marking: &[u32], mode: Mode) -> Answered
    ensures { TestAllows net.now marking.now mode result }
{
    test(net, marking, mode).into()
}

pub fn pnet_fire(net: &[u8], marking: &mut [u32], mode: Mode) -> Answered
    ensures { FireAllows net.now marking.old mode (result, marking.new) }
{
    fire(net, marking, mode).into()
}

// C lends modes: a `struct pnet_mode` is its number.
pub fn pnet_test_step(net: &[u8], marking: &[u32], modes: &[u16]) -> Answered
    ensures { TestStepAllows net.now marking.now modes.now result }
{
    test_step(net, marking, modes).into()
}

pub fn pnet_fire_step(net: &[u8], marking: &mut [u32], modes: &[u16]) -> Answered
    ensures { FireStepAllows net.now marking.old modes.now (result, marking.new) }
{
    fire_step(net, marking, modes).into()
}

pub fn pnet_run(net: &[u8], movements: &[u8], marking: &mut [u32]) -> Tallied
    ensures { RunAllows net.now movements.now marking.old (result, marking.new) }
{
    let outcome = run(net, movements, marking);
    Tallied {
        answer: outcome.answer.into(),
        accepted: outcome.accepted as u64,
        arcs: outcome.visited as u64,
    }
}

pub fn pnet_certify(net: &[u8], movements: &[u8], claim: &[u32]) -> Answered
    ensures { CertifyAllows net.now movements.now claim.now result }
{
    certify(net, movements, claim).into()
}
