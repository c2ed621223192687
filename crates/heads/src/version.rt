// Which layout a net sheet has.
ghost use Rattle.std.specs.Prelude.{◌≡◌, ◌≤◌, length};
ghost use Rattle.heads.specs.Version.{version_of};

use model::Version;

pub fn version_of(s: &[u8]) -> Version
    requires { 5 ≤ length s.now }
    ensures { result ≡ version_of s.now }
{
    if s[4] == 2 {
        return Version::Two;
    }
    Version::One
}
