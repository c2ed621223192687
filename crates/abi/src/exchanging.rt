// A net as a text in PNML, and such a text as a net.
ghost use Rattle.abi.specs.Allowed.{ExportPnmlAllows, ImportPnmlAllows};

use answers::Counted;
use export::export_pnml;
use import::import_pnml;

pub fn pnet_export_pnml(net: &[u8], out: &mut [u8]) -> Counted
    ensures { ExportPnmlAllows net.now out.old (result, out.new) }
{
    export_pnml(net, out).into()
}

pub fn pnet_import_pnml(text: &[u8], out: &mut [u8]) -> Counted
    ensures { ImportPnmlAllows text.now out.old (result, out.new) }
{
    import_pnml(text, out).into()
}
