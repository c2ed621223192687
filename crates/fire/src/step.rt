// Steps: several movements as one entry, over a lent marking (document 02, P1).
// What each call answers, and what it leaves in the marking, is said in specs/step/Calls.antt.
ghost use Rattle.std.specs.Prelude.{◌≡◌};
ghost use Rattle.model.specs.Refusals.{answer};
ghost use Rattle.model.specs.Markings.{Marking};
ghost use Rattle.both_forms.specs.Steps.{fired_together};
ghost use Rattle.sheets.specs.Decoded.{net_of};
ghost use Rattle.leaving.specs.Leaving.{Leaves};
ghost use Rattle.fire.specs.step.Calls.{step_modes};
ghost use Rattle.fire.specs.step.Parts.{Members, argument_refusal, sums_refusal};
ghost use Rattle.fire.specs.step.Allowed.{TestStepAllows, FireStepAllows};

use crate::marking::marking_answer;
use crate::step::members::members_answer;
use crate::step::pairs::{find_refusal, write_pairs};
use crate::step::sums::sum_members;
use crate::step::tables::Sums;
use model::Answer;
use opened::open::OpenNet;
use opened::open_net;

mod members;
mod pairs;
mod sums;
mod tables;

fn test_members(net: &OpenNet, marking: &[u32], modes: &[u16]) -> Answer
    requires marking { Marking (net_of net.now.sheet.now) marking.now }
    requires members { Members net.now.shape.modes modes.now }
    ensures { result ≡ answer (sums_refusal (net_of net.now.sheet.now) modes.now marking.now) }
{
    let mut sums = Sums {
        pre: [0; 256],
        post: [0; 256],
        low: [0xffff_ffff; 256],
    };
    sum_members(net, modes, &mut sums);
    find_refusal(net, &sums, marking)
}

fn test_open(net: &OpenNet, marking: &[u32], modes: &[u16]) -> Answer
    ensures { result ≡ answer (argument_refusal (net_of net.now.sheet.now) marking.now modes.now) }
{
    marking_answer(net, marking)?;
    members_answer(net.shape, modes)?;
    test_members(net, marking, modes)
}

// Whether the modes of a step may fire at once.
pub fn test_step(net: &[u8], marking: &[u32], modes: &[u16]) -> Answer
    ensures { TestStepAllows net.now marking.now modes.now result }
{
    let net = open_net(net)?;
    test_open(&net, marking, modes)
}

// Tested first, then written: a refused step writes nothing.
fn fire_members(net: &OpenNet, marking: &mut [u32], modes: &[u16]) -> Answer
    requires marking { Marking (net_of net.now.sheet.now) marking.old }
    requires members { Members net.now.shape.modes modes.now }
    ensures { Leaves (sums_refusal (net_of net.now.sheet.now) modes.now marking.old) (fired_together (net_of net.now.sheet.now) (step_modes modes.now) marking.old) marking.old result marking.new }
{
    let mut sums = Sums {
        pre: [0; 256],
        post: [0; 256],
        low: [0xffff_ffff; 256],
    };
    sum_members(net, modes, &mut sums);
    find_refusal(net, &sums, marking)?;
    write_pairs(net, &sums, marking);
    Ok(())
}

fn fire_open(net: &OpenNet, marking: &mut [u32], modes: &[u16]) -> Answer
    ensures { Leaves (argument_refusal (net_of net.now.sheet.now) marking.old modes.now) (fired_together (net_of net.now.sheet.now) (step_modes modes.now) marking.old) marking.old result marking.new }
{
    marking_answer(net, marking)?;
    members_answer(net.shape, modes)?;
    fire_members(net, marking, modes)
}

// Fires them at once where they may, and writes nothing where they may not.
pub fn fire_step(net: &[u8], marking: &mut [u32], modes: &[u16]) -> Answer
    ensures { FireStepAllows net.now marking.old modes.now (result, marking.new) }
{
    let net = open_net(net)?;
    fire_open(&net, marking, modes)
}
