// Bytes out: the parts of a net sheet, big-endian, into a slice that the caller lends. Each put hands back the place after its bytes.
ghost use Rattle.std.specs.Prelude.{◌≡◌, ◌+◌, ◌-◌, ◌<◌, ◌≤◌, [], ◌∷◌, length};
ghost use Rattle.model.specs.Nets.{rule_number};
ghost use Rattle.fields.specs.Numbers.{bound};
ghost use Rattle.sheets.specs.written.Written.{bytes16, bytes32, mode_bytes, version_bytes, head_bytes, pair_bytes, total_bytes, own_bytes};
ghost use Rattle.sheets.specs.written.Puts.{Put, Room, Puts, part_of, head_size, total_size, own_size, mode_size, sheet_size};

use model::{CapacityRule, Version};

fn put_byte(out: &mut [u8], at: usize, x: u8) -> usize
    requires { at + 1 ≤ length out.old }
    ensures { Put out.old at 1 (x ∷ []) out.new result }
{
    out[at] = x;
    at + 1
}

pub fn put16(out: &mut [u8], at: usize, x: u16) -> usize
    requires { at + 2 ≤ length out.old }
    ensures { Put out.old at 2 (bytes16 x) out.new result }
{
    out[at] = (x / 256) as u8;
    out[at + 1] = (x % 256) as u8;
    at + 2
}

pub fn put32(out: &mut [u8], at: usize, x: u32) -> usize
    requires { at + 4 ≤ length out.old }
    ensures { Put out.old at 4 (bytes32 x) out.new result }
{
    let next = put16(out, at, (x / 65536) as u16);
    put16(out, next, (x % 65536) as u16)
}

// Bytes of another run: n of them, from `start` on.
pub fn put_part(s: &[u8], start: usize, n: usize, out: &mut [u8], at: usize) -> usize
    requires n_in_bounds { start + n ≤ length s.now }
    requires room { Room out.old at (part_of s.now start n) }
    ensures { Puts out.old at (part_of s.now start n) out.new result }
{
    // Byte by byte: the library's copy would need `memmove` of whoever links the archive for C.
    let mut next = at;
    for i in 0..n {
        next = put_byte(out, next, s[start + i]);
    }
    next
}

// A count of 2 bytes.
pub fn put_count(out: &mut [u8], at: usize, count: usize) -> usize
    requires { (at + 2 ≤ length out.old) × (count < 65536) }
    ensures { Put out.old at 2 (bytes16 count) out.new result }
{
    put16(out, at, count as u16)
}

// "In version 2 a rule byte .. follows the version." (document 02, P9)
fn put_version(out: &mut [u8], at: usize, version: Version, rule: u8) -> usize
    requires { Room out.old at (version_bytes version rule) }
    ensures { Puts out.old at (version_bytes version rule) out.new result }
{
    match version {
        Version::One => put_byte(out, at, 1),
        Version::Two => {
            let next = put_byte(out, at, 2);
            put_byte(out, next, rule)
        }
    }
}

// The head of a sheet of `size` bytes: its length L, its version and its rule.
pub fn put_head(out: &mut [u8], version: Version, rule: CapacityRule, size: usize) -> usize
    requires room { Room out.old 0 (head_bytes version (rule_number rule) (size - 4)) }
    requires le_size { (4 ≤ size) × (size < 4294967296) }
    ensures { Puts out.old 0 (head_bytes version (rule_number rule) (size - 4)) out.new result }
{
    let next = put32(out, 0, (size - 4) as u32);
    put_version(out, next, version, u8::from(rule))
}

// How many bytes that takes.
pub fn head_size(version: Version) -> usize
    ensures { result ≡ head_size version }
{
    match version {
        Version::One => 5,
        Version::Two => 6,
    }
}

// K and the first marking of a pair.
pub fn put_pair(out: &mut [u8], at: usize, capacity: u32, start: u32) -> usize
    requires { at + 8 ≤ length out.old }
    ensures { Put out.old at 8 (pair_bytes (bound capacity) start) out.new result }
{
    let next = put32(out, at, capacity);
    put32(out, next, start)
}

// How many arcs there are in all, where the version says it.
pub fn put_total(out: &mut [u8], at: usize, version: Version, arcs: usize) -> usize
    requires room { Room out.old at (total_bytes version arcs) }
    requires arcs_bound { arcs < 65536 }
    ensures { Puts out.old at (total_bytes version arcs) out.new result }
{
    match version {
        Version::One => put_count(out, at, arcs),
        Version::Two => at,
    }
}

// How many bytes it takes.
pub fn total_size(version: Version) -> usize
    ensures { result ≡ total_size version }
{
    match version {
        Version::One => 2,
        Version::Two => 0,
    }
}

// How many arcs a mode has, where the version says it.
pub fn put_own(out: &mut [u8], at: usize, version: Version, arcs: usize) -> usize
    requires { (at + own_size version ≤ length out.old) × (arcs < 65536) }
    ensures { Put out.old at (own_size version) (own_bytes version arcs) out.new result }
{
    match version {
        Version::One => at,
        Version::Two => put_count(out, at, arcs),
    }
}

// How many bytes it takes.
pub fn own_size(version: Version) -> usize
    ensures { result ≡ own_size version }
{
    match version {
        Version::One => 0,
        Version::Two => 2,
    }
}

// The mode of an arc, where the version says it.
pub fn put_arc_mode(out: &mut [u8], at: usize, version: Version, mode: u16) -> usize
    requires { at + mode_size version ≤ length out.old }
    ensures { Put out.old at (mode_size version) (mode_bytes version mode) out.new result }
{
    match version {
        Version::One => put16(out, at, mode),
        Version::Two => at,
    }
}

// How many bytes it takes.
pub fn mode_size(version: Version) -> usize
    ensures { result ≡ mode_size version }
{
    match version {
        Version::One => 2,
        Version::Two => 0,
    }
}

// How long a net sheet with so many places, transitions, pairs, modes and arcs is.
pub fn sheet_size(
    version: Version,
    places: usize,
    transitions: usize,
    pairs: usize,
    modes: usize,
    arcs: usize,
) -> usize
    requires { (places < 65536) × (transitions < 65536) × (pairs < 65536) × (modes < 65536) × (arcs < 65536) }
    ensures { result ≡ sheet_size version places transitions pairs modes arcs }
{
    let records = 8 + 2 * places + 2 * transitions + 8 * pairs;
    match version {
        Version::One => records + 1 + 2 + 16 * arcs,
        Version::Two => records + 2 + 2 * modes + 14 * arcs,
    }
}
