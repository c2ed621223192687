// Lists of movements: run over a lent marking, certify from the net's first marking.
// What each call answers, and what a run leaves in the marking, is said in specs/Calls.antt.
#![tactic(auto)]

ghost use Rattle.std.specs.Prelude.{◌≡◌};
ghost use Rattle.model.specs.First.{◌▸◌};
ghost use Rattle.model.specs.Refusals.{answer};
ghost use Rattle.movement.specs.Runs.{run as model_run, certificate_refusal};
ghost use Rattle.both_forms.specs.Visits.{visited};
ghost use Rattle.sheets.specs.Whole.{whole_movements};
ghost use Rattle.sheets.specs.Decoded.{net_of, movements_of};
ghost use Rattle.run.specs.Calls.{before_run};
ghost use Rattle.run.specs.Parts.{Begins};
ghost use Rattle.run.specs.Allowed.{RunAllows, CertifyAllows};

use crate::certificate::certificate_answer;
use crate::movements::run_sheet;
use fire::marking::marking_answer;
use model::{Answer, Refusal};
use opened::list::MovementList;
use opened::open::OpenNet;
use opened::open_net;
use sheets::whole::whole_movements;

mod certificate;
pub mod movements;
pub mod salvage;

// How many movements of a run were accepted, how many arcs it visited, and the answer to the first movement that was not accepted. No `Result`: the counts are told
// beside a refusal.
#[derive(Clone, Copy)]
pub struct Ran {
    pub accepted: usize,
    pub visited: usize,
    pub answer: Answer,
}

// What refuses a list before its first movement; or its run.
fn begin_run(net: &[u8], movements: &[u8], marking: &mut [u32]) -> Result<Ran, Refusal>
    ensures { Begins (before_run net.now movements.now marking.old) marking.old (model_run (net_of net.now) (movements_of movements.now) marking.old) (visited (net_of net.now) (movements_of movements.now) marking.old) result marking.new }
{
    let net = open_net(net)?;
    whole_movements(movements)?;
    marking_answer(&net, marking)?;
    let list = MovementList { sheet: movements };
    Ok(run_sheet(&net, &list, marking))
}

// Runs a list of movements from the counts found, up to the first that is refused.
pub fn run(net: &[u8], movements: &[u8], marking: &mut [u32]) -> Ran
    ensures { RunAllows net.now movements.now marking.old (result, marking.new) }
{
    match begin_run(net, movements, marking) {
        Ok(ran) => ran,
        Err(refusal) => Ran {
            accepted: 0,
            visited: 0,
            answer: Err(refusal),
        },
    }
}

fn certify_open(net: &OpenNet, movements: &[u8], claim: &[u32]) -> Answer
    ensures { result ≡ answer (whole_movements movements.now ▸ certificate_refusal (net_of net.now.sheet.now) (movements_of movements.now) claim.now) }
{
    whole_movements(movements)?;
    let list = MovementList { sheet: movements };
    certificate_answer(net, &list, claim)
}

// Whether a list of movements leads from the net's first marking to the claim.
pub fn certify(net: &[u8], movements: &[u8], claim: &[u32]) -> Answer
    ensures { CertifyAllows net.now movements.now claim.now result }
{
    let net = open_net(net)?;
    certify_open(&net, movements, claim)
}
