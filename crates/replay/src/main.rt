// Standard input to standard output (document 01, "`replay`"): what was read, one call, what it wrote. "Input above 65,536 bytes" is told by one byte more.
#![tactic(auto)]

ghost use Rattle.std.specs.Prelude.{◌≤◌, length};

use statement::statement;
use std::io::{Read, Write};

// Reads until the slice is full, the input ends or a read fails, and returns how many bytes stand at the slice's start.
fn read_full<R: Read>(from: &mut R, into: &mut [u8]) -> usize
    ensures { result ≤ length into.new }
{
    let mut done = 0;
    for _ in 0..into.len() {
        match from.read(&mut into[done..]) {
            Ok(0) | Err(_) => return done,
            Ok(more) => done += more,
        }
    }
    done
}

fn main(rt: HostRuntime) {
    let mut input = [0u8; 65_537];
    let read = read_full(&mut rt.stdin(), &mut input);
    let mut out = [0u8; 262_144];
    let whole = match statement(&input[..read], &mut out) {
        Ok(length) => rt.stdout().write_all(&out[..length]).is_ok(),
        Err(_) => false,
    };
    if !whole {
        let _said = rt
            .stderr()
            .write_all(b"replay: the text could not be written whole\n");
    }
}
