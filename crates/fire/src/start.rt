// The net's first marking, written into a slice of one count for each pair.
ghost use Rattle.std.specs.Prelude.{◌≡◌, length};
ghost use Rattle.sheets.specs.Decoded.{net_of};

use model::Pair;
use opened::open::OpenNet;
use opened::shape::start_count;

pub fn write_start(net: &OpenNet, marking: &mut [u32])
    requires marking_len { length marking.old ≡ net.now.shape.pairs }
    ensures { marking.new ≡ (net_of net.now.sheet.now).start }
{
    for p in 0..net.shape.pairs {
        marking[p] = start_count(net, Pair(p as u16));
    }
}
