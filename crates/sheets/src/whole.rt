// Bytes after a sheet: refused where a call takes one sheet as an argument, handed back where a reader is called on a run of bytes.
ghost use Rattle.std.specs.Prelude.{◌≡◌};
ghost use Rattle.model.specs.Refusals.{answer};
ghost use Rattle.heads.specs.Held.{Headed};
ghost use Rattle.sheets.specs.Whole.{bytes_after, rest};
ghost use Rattle.sheets.specs.Allowed.{WholeNetAllows, WholeWeightsAllows, WholeMovementsAllows, AfterNetAllows, AfterWeightsAllows, AfterMovementsAllows};

use crate::lists::movements::read_movements;
use crate::lists::weights::read_weights;
use crate::nets::net::read_net;
use heads::head::{refused, sheet_end};
use model::{Answer, Fault, Thing};

fn bytes_after(s: &[u8], thing: Thing) -> Answer
    requires { Headed s.now }
    ensures { result ≡ answer (bytes_after thing s.now) }
{
    let end = sheet_end(s);
    if end < s.len() {
        return refused(thing, Fault::WrongLength(end));
    }
    Ok(())
}

pub fn whole_net(s: &[u8]) -> Answer
    ensures { WholeNetAllows s.now result }
{
    read_net(s)?;
    bytes_after(s, Thing::Net)
}

pub fn whole_weights(s: &[u8], pairs: usize) -> Answer
    ensures { WholeWeightsAllows s.now pairs result }
{
    read_weights(s, pairs)?;
    bytes_after(s, Thing::Weights)
}

pub fn whole_movements(s: &[u8]) -> Answer
    ensures { WholeMovementsAllows s.now result }
{
    read_movements(s)?;
    bytes_after(s, Thing::Movements)
}

// The part of the caller's bytes after a sheet with this answer, the whole run on a refusal.
pub fn after(s: &[u8], sheet: Answer) -> &[u8]
    requires { sheet ≡ Ok tt → Headed s.now }
    ensures { result.now ≡ rest sheet s.now }
{
    if let Err(_) = sheet {
        return s;
    }
    let end = sheet_end(s);
    &s[end..]
}

pub fn after_net(s: &[u8]) -> &[u8]
    ensures { AfterNetAllows s.now result.now }
{
    after(s, read_net(s))
}

pub fn after_weights(s: &[u8], pairs: usize) -> &[u8]
    ensures { AfterWeightsAllows s.now pairs result.now }
{
    after(s, read_weights(s, pairs))
}

pub fn after_movements(s: &[u8]) -> &[u8]
    ensures { AfterMovementsAllows s.now result.now }
{
    after(s, read_movements(s))
}
