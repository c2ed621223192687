// The readers: instead of the part after the sheet, how many bytes the sheet takes.
ghost use Rattle.std.specs.Prelude.{◌≡◌, Ok};
ghost use Rattle.heads.specs.Held.{Headed};
ghost use Rattle.abi.specs.Told.{taken};
ghost use Rattle.abi.specs.Allowed.{ReadNetAllows, ReadWeightsAllows, ReadMovementsAllows};

use answers::Counted;
use heads::head::sheet_end;
use model::Answer;
use sheets::lists::movements::read_movements;
use sheets::lists::weights::read_weights;
use sheets::nets::net::read_net;

fn bytes_taken(s: &[u8], sheet: Answer) -> Counted
    requires { sheet ≡ Ok tt → Headed s.now }
    ensures { result ≡ taken s.now sheet }
{
    let answer = sheet.into();
    match sheet {
        Ok(()) => Counted {
            answer,
            value: sheet_end(s) as u64,
        },
        Err(_) => Counted { answer, value: 0 },
    }
}

pub fn pnet_read_net(bytes: &[u8]) -> Counted
    ensures { ReadNetAllows bytes.now result }
{
    bytes_taken(bytes, read_net(bytes))
}

pub fn pnet_read_weights(bytes: &[u8], pairs: usize) -> Counted
    ensures { ReadWeightsAllows bytes.now pairs result }
{
    bytes_taken(bytes, read_weights(bytes, pairs))
}

pub fn pnet_read_movements(bytes: &[u8]) -> Counted
    ensures { ReadMovementsAllows bytes.now result }
{
    bytes_taken(bytes, read_movements(bytes))
}
