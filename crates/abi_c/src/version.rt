// The version of the structs and calls of include/pnet.h, in a name: every object compiled with the header refers to it, so that one compiled with
// another version's header does not link.
ghost use Rattle.std.specs.Prelude.{◌≡◌};

#[unsafe(no_mangle)]
pub extern "C" fn pnet_abi_3() -> u64
    ensures { result ≡ 3 }
{
    abi::version::pnet_abi_3()
}
