// The readers: instead of the part after the sheet, how many bytes the sheet takes.
ghost use Rattle.abi.specs.Allowed.{ReadNetAllows, ReadWeightsAllows, ReadMovementsAllows};

use answers::Counted;

#[unsafe(no_mangle)]
pub extern "C" fn pnet_read_net(bytes: &[u8]) -> Counted
    ensures { ReadNetAllows bytes.now result }
{
    abi::reading::pnet_read_net(bytes)
}

#[unsafe(no_mangle)]
pub extern "C" fn pnet_read_weights(bytes: &[u8], pairs: usize) -> Counted
    ensures { ReadWeightsAllows bytes.now pairs result }
{
    abi::reading::pnet_read_weights(bytes, pairs)
}

#[unsafe(no_mangle)]
pub extern "C" fn pnet_read_movements(bytes: &[u8]) -> Counted
    ensures { ReadMovementsAllows bytes.now result }
{
    abi::reading::pnet_read_movements(bytes)
}
