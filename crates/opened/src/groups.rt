// How many arcs a net has: the arc count of version 1, or the counts of each mode in version 2.
ghost use Rattle.std.specs.Prelude.{◌≡◌, ◌+◌, ◌≤◌, ◌<◌, length};
ghost use Rattle.std.proofs.Math.Option.{none};
ghost use Rattle.model.specs.declared.Version.TheVariants.{Two};
ghost use Rattle.heads.specs.Layout.{mode_count, arc_count_at};
ghost use Rattle.heads.specs.Version.{version_of};
ghost use Rattle.sheets.specs.nets.Nets.{net_refusal};
ghost use Rattle.sheets.specs.Decoded.{net_of};
ghost use Rattle.opened.specs.Shape.{Before};

use fields::read::count_at;
use heads::version::version_of;
use model::Version;

// How many arcs stand before those of the next mode, where k stand before those of mode t.
pub(crate) fn group_end(s: &[u8], base: usize, t: usize, k: usize) -> usize
    requires before { Before s.now base t k }
    requires t_bound { t < mode_count s.now }
    ensures { Before s.now base (t + 1) result }
{
    k + count_at(s, base + 2 * t + 14 * k)
}

// How many stand before those of mode n.
pub(crate) fn arcs_before(s: &[u8], base: usize, n: usize) -> usize
    requires s_value { net_refusal s.now ≡ none }
    requires s_value_2 { version_of s.now ≡ Two }
    requires base_value { (base ≡ arc_count_at s.now) × (n ≤ mode_count s.now) }
    ensures { Before s.now base n result }
{
    let mut k = 0;
    for t in 0..n {
        k = group_end(s, base, t, k);
    }
    k
}

pub(crate) fn count_arcs(s: &[u8], base: usize, modes: usize) -> usize
    requires s_value { net_refusal s.now ≡ none }
    requires base_value { (base ≡ arc_count_at s.now) × (modes ≡ mode_count s.now) }
    ensures { result ≡ length (net_of s.now).arcs }
{
    match version_of(s) {
        Version::One => count_at(s, base),
        Version::Two => arcs_before(s, base, modes),
    }
}
