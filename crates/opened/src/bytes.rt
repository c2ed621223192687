// A small number in a run of bytes, read in place.
ghost use Rattle.std.specs.Prelude.{◌≡◌, ◌+◌, ◌<◌, ◌≤◌, length};
ghost use Rattle.heads.specs.Bytes.{u16_at};

// A number of 2 bytes that is below 256: its second byte.
pub(crate) fn small_at(s: &[u8], at: usize) -> u16
    requires at_in_bounds { at + 2 ≤ length s.now }
    requires at_bound { u16_at s.now at < 256 }
    ensures { result ≡ u16_at s.now at }
{
    u16::from(s[at + 1])
}
