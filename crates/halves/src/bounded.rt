// A pair of finite K, which has a complement pair.
ghost use Rattle.std.specs.Prelude.{◌≡◌, cond, ◌<◌};
ghost use Rattle.model.specs.Nets.{K};
ghost use Rattle.second_form.specs.Complement.{finite};
ghost use Rattle.sheets.specs.Decoded.{net_of};

use model::Pair;
use opened::finite::is_finite;
use opened::open::OpenNet;
use opened::shape::capacity;

pub fn one_if_bounded(net: &OpenNet, p: usize) -> u16
    requires p_lt_pairs { p < net.now.shape.pairs }
    ensures { result ≡ cond (finite (K (net_of net.now.sheet.now) p)) 1 0 }
{
    u16::from(is_finite(capacity(net, Pair(p as u16))))
}
