// Bytes written into a slice that the caller lends, where it has room for them: each call hands back the position after what it wrote.
#![tactic(auto)]

ghost use Rattle.std.specs.Prelude.{[], ◌∷◌, ◌+◌, ◌≤◌, length};
ghost use Rattle.writes.specs.Writes.{Writes};

pub fn write_byte(out: &mut [u8], at: usize, byte: u8) -> usize
    requires { at + 1 ≤ length out.old }
    ensures { Writes 1 out.old at (byte ∷ []) result out.new }
{
    out[at] = byte;
    at + 1
}

pub fn write_bytes(out: &mut [u8], at: usize, bytes: &[u8]) -> usize
    requires { at + length bytes.now ≤ length out.old }
    ensures { Writes (length bytes.now) out.old at bytes.now result out.new }
{
    out[at..at + bytes.len()].copy_from_slice(bytes);
    at + bytes.len()
}
