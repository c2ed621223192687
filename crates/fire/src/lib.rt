// Movements over a lent marking, one at a time: begin, test, fire.
// What each call answers, and what it leaves in the marking, is said in specs/Calls.antt.
#![tactic(auto)]

ghost use Rattle.std.specs.Prelude.{◌≡◌};
ghost use Rattle.model.specs.Refusals.{answer};
ghost use Rattle.model.specs.Firing.{fired};
ghost use Rattle.sheets.specs.Decoded.{net_of};
ghost use Rattle.fire.specs.Calls.{argument_refusal};
ghost use Rattle.leaving.specs.Leaving.{Leaves};
ghost use Rattle.model.specs.Markings.{unequal};
ghost use Rattle.fire.specs.Allowed.{BeginAllows, TestAllows, FireAllows};

use crate::advance::mode_answer;
use crate::firing::mode::{fire_arcs, row_answer};
use crate::marking::marking_answer;
use crate::start::write_start;
use heads::head::refused;
use model::{Answer, Fault, Mode, Thing};
use opened::open::OpenNet;
use opened::open_net;
use opened::starts::find_arcs;

pub mod advance;
pub mod firing;
pub mod marking;
pub mod start;
pub mod step;

fn begin_open(net: &OpenNet, marking: &mut [u32]) -> Answer
    ensures { Leaves (unequal (net_of net.now.sheet.now) marking.old) (net_of net.now.sheet.now).start marking.old result marking.new }
{
    if marking.len() != net.shape.pairs {
        return refused(Thing::Argument, Fault::NotOneEach(0));
    }
    write_start(net, marking);
    Ok(())
}

// Writes the net's first marking.
pub fn begin(net: &[u8], marking: &mut [u32]) -> Answer
    ensures { BeginAllows net.now marking.old (result, marking.new) }
{
    let net = open_net(net)?;
    begin_open(&net, marking)
}

fn test_open(net: &OpenNet, marking: &[u32], mode: Mode) -> Answer
    ensures { result ≡ answer (argument_refusal (net_of net.now.sheet.now) marking.now mode) }
{
    marking_answer(net, marking)?;
    mode_answer(net.shape, Thing::Argument, mode)?;
    row_answer(net, find_arcs(net, mode), Thing::Argument, marking)
}

// Whether the mode may fire.
pub fn test(net: &[u8], marking: &[u32], mode: Mode) -> Answer
    ensures { TestAllows net.now marking.now mode result }
{
    let net = open_net(net)?;
    test_open(&net, marking, mode)
}

fn fire_open(net: &OpenNet, marking: &mut [u32], mode: Mode) -> Answer
    ensures { Leaves (argument_refusal (net_of net.now.sheet.now) marking.old mode) (fired (net_of net.now.sheet.now) mode marking.old) marking.old result marking.new }
{
    marking_answer(net, marking)?;
    mode_answer(net.shape, Thing::Argument, mode)?;
    let arcs = find_arcs(net, mode);
    fire_arcs(net, arcs, Thing::Argument, marking)
}

// Fires the mode where it may, and writes nothing where it may not.
pub fn fire(net: &[u8], marking: &mut [u32], mode: Mode) -> Answer
    ensures { FireAllows net.now marking.old mode (result, marking.new) }
{
    let net = open_net(net)?;
    fire_open(&net, marking, mode)
}
