// Big-endian numbers in a run of bytes, read in place.
ghost use Rattle.std.specs.Prelude.{◌≡◌, ◌+◌, ◌<◌, ◌≤◌, length};
ghost use Rattle.heads.specs.Bytes.{u16_at, u32_at};

pub fn u16_at(s: &[u8], at: usize) -> u16
    requires { at + 2 ≤ length s.now }
    ensures { (result ≡ u16_at s.now at) × (result < 65536) }
{
    u16::from(s[at]) * 256 + u16::from(s[at + 1])
}

pub fn u32_at(s: &[u8], at: usize) -> u32
    requires { at + 4 ≤ length s.now }
    ensures { (result ≡ u32_at s.now at) × (result < 4294967296) }
{
    u32::from(u16_at(s, at)) * 65536 + u32::from(u16_at(s, at + 2))
}
