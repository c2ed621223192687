// The text of `replay`.
ghost use Rattle.abi.specs.Allowed.{StatementAllows};

use answers::Counted;

#[unsafe(no_mangle)]
pub extern "C" fn pnet_statement(input: &[u8], out: &mut [u8]) -> Counted
    ensures { StatementAllows input.now out.old (result, out.new) }
{
    abi::stating::pnet_statement(input, out)
}
