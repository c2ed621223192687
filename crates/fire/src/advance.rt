// Whether a movement's mode is there, asked before its arcs are looked at.
ghost use Rattle.std.specs.Prelude.{◌≡◌};
ghost use Rattle.model.specs.Refusals.{answer};
ghost use Rattle.model.specs.Firing.{absent};

use heads::head::refused;
use model::{Answer, Fault, Mode, Thing};
use opened::shape::NetShape;

// 6: "a movement's mode is not there".
pub fn mode_answer(net: NetShape, thing: Thing, mode: Mode) -> Answer
    ensures { result ≡ answer (absent thing net.modes mode) }
{
    if net.modes <= mode.0 as usize {
        return refused(thing, Fault::NotThere);
    }
    Ok(())
}
