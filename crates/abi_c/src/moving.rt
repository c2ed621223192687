// Movements over a lent marking.
ghost use Rattle.abi.specs.Allowed.{BeginAllows, TestAllows, FireAllows, TestStepAllows, FireStepAllows, RunAllows, CertifyAllows};

use answers::{Answered, Tallied};
use model::Mode;

#[unsafe(no_mangle)]
pub extern "C" fn pnet_begin(net: &[u8], marking: &mut [u32]) -> Answered
    ensures { BeginAllows net.now marking.old (result, marking.new) }
{
    abi::moving::pnet_begin(net, marking)
}

#[unsafe(no_mangle)]
pub extern "C" fn pnet_test(net: &[u8], marking: &[u32], mode: Mode) -> Answered
    ensures { TestAllows net.now marking.now mode result }
{
    abi::moving::pnet_test(net, marking, mode)
}

#[unsafe(no_mangle)]
pub extern "C" fn pnet_fire(net: &[u8], marking: &mut [u32], mode: Mode) -> Answered
    ensures { FireAllows net.now marking.old mode (result, marking.new) }
{
    abi::moving::pnet_fire(net, marking, mode)
}

// C lends modes: a `struct pnet_mode` is its number.
#[unsafe(no_mangle)]
pub extern "C" fn pnet_test_step(net: &[u8], marking: &[u32], modes: &[u16]) -> Answered
    ensures { TestStepAllows net.now marking.now modes.now result }
{
    abi::moving::pnet_test_step(net, marking, modes)
}

#[unsafe(no_mangle)]
pub extern "C" fn pnet_fire_step(net: &[u8], marking: &mut [u32], modes: &[u16]) -> Answered
    ensures { FireStepAllows net.now marking.old modes.now (result, marking.new) }
{
    abi::moving::pnet_fire_step(net, marking, modes)
}

#[unsafe(no_mangle)]
pub extern "C" fn pnet_run(net: &[u8], movements: &[u8], marking: &mut [u32]) -> Tallied
    ensures { RunAllows net.now movements.now marking.old (result, marking.new) }
{
    abi::moving::pnet_run(net, movements, marking)
}

#[unsafe(no_mangle)]
pub extern "C" fn pnet_certify(net: &[u8], movements: &[u8], claim: &[u32]) -> Answered
    ensures { CertifyAllows net.now movements.now claim.now result }
{
    abi::moving::pnet_certify(net, movements, claim)
}
