// The modes considered, run from the net's first marking in counts of the call's own.
ghost use Rattle.std.specs.Prelude.{◌≡◌, length};
ghost use Rattle.damaged.specs.Damaged.{considered};
ghost use Rattle.damaged.specs.Parts.{Legible};
ghost use Rattle.run.specs.salvage.Parts.{ran_on};

use crate::Ran;
use crate::movements::run_modes;
use fire::start::write_start;
use numbers::write_numbers;
use opened::listed::movements_at;
use opened::open::OpenNet;
use opened::starts::starts;

fn run_from_first(net: &OpenNet, damaged: &[u8], count: usize, marking: &mut [u32]) -> Ran
    requires legible { Legible damaged.now }
    requires count_value { count ≡ considered damaged.now }
    requires marking_len { length marking.old ≡ net.now.shape.pairs }
    ensures { result ≡ ran_on net.now.sheet.now damaged.now }
{
    write_start(net, marking);
    let starts = starts(net);
    let mut numbers = [0u32; 2048];
    write_numbers(net, &starts, &mut numbers);
    run_modes(
        net,
        &starts,
        &numbers,
        damaged,
        movements_at(),
        count,
        marking,
    )
}

pub(crate) fn run_considered(net: &OpenNet, damaged: &[u8], count: usize) -> Ran
    requires legible { Legible damaged.now }
    requires count_value { count ≡ considered damaged.now }
    ensures { result ≡ ran_on net.now.sheet.now damaged.now }
{
    let mut counts = [0u32; 256];
    run_from_first(net, damaged, count, &mut counts[..net.shape.pairs])
}
