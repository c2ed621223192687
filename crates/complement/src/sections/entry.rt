// What an arc leaves at its own pair, and an arc that is left out.
ghost use Rattle.std.specs.Prelude.{◌≡◌};
ghost use Rattle.second_form.specs.Complement.{blank};
ghost use Rattle.both_forms.specs.Promises.{on_original};
ghost use Rattle.sheets.specs.Decoded.{net_arc};

use model::Arc;
use opened::finite::is_finite;

// "All K and I become unbounded. Original Pre, Post and first marking stay."
pub(crate) fn original_arc(arc: Arc) -> Arc
    ensures { net_arc result ≡ on_original (net_arc arc) }
{
    Arc {
        inhibitor: 0xffff_ffff,
        ..arc
    }
}

pub(crate) fn is_blank(arc: Arc) -> bool
    ensures { result ≡ blank (net_arc arc).entry }
{
    arc.pre == 0 && arc.post == 0 && !is_finite(arc.inhibitor)
}
