// From replay's input to replay's output (document 01, "`replay`").
#![tactic(auto)]

pub mod exclude;
pub mod fleet;
mod input;
pub mod lines;
mod movements;
pub mod told;
pub mod weigh;

ghost use Rattle.std.specs.Prelude.{◌≤◌, length};
ghost use Rattle.writes.specs.Writes.{Writes};
ghost use Rattle.statement.specs.Allowed.{StatementAllows};
ghost use Rattle.statement.specs.Replay.{replay_text, room};

use crate::input::put_sheets;
use crate::lines::put_long;
use model::{Fault, Refusal, Thing};

fn put_text(input: &[u8], out: &mut [u8]) -> usize
    requires { room ≤ length out.old }
    ensures { Writes room out.old 0 (replay_text input.now) result out.new }
{
    if 65_536 < input.len() {
        return put_long(out, 0);
    }
    put_sheets(input, out)
}

// The text that `replay` prints for this input, in a slice that is long enough for every text.
pub fn statement(input: &[u8], out: &mut [u8]) -> Result<usize, Refusal>
    ensures { StatementAllows input.now out.old (result, out.new) }
{
    if out.len() < 262_144 {
        return Err(Refusal {
            thing: Thing::Net,
            fault: Fault::NoRoom,
        });
    }
    Ok(put_text(input, out))
}
