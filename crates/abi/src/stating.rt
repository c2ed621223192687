// The text of `replay`.
ghost use Rattle.abi.specs.Allowed.{StatementAllows};

use answers::Counted;
use statement::statement;

pub fn pnet_statement(input: &[u8], out: &mut [u8]) -> Counted
    ensures { StatementAllows input.now out.old (result, out.new) }
{
    statement(input, out).into()
}
