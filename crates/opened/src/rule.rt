// Which capacity rule a net sheet has.
ghost use Rattle.std.specs.Prelude.{◌≡◌, ◌≤◌, length};
ghost use Rattle.model.specs.declared.Version.TheVariants.{Two};
ghost use Rattle.heads.specs.Rule.{rule_of};

use model::{CapacityRule, Version};

fn named_rule(s: &[u8]) -> CapacityRule
    requires { 6 ≤ length s.now }
    ensures { result ≡ rule_of Two s.now }
{
    if s[5] == 1 {
        return CapacityRule::Weak;
    }
    CapacityRule::Strong
}

// "Rule byte 1 in version 2": version 1 has no rule byte.
pub(crate) fn rule_of(s: &[u8], version: Version) -> CapacityRule
    requires { 6 ≤ length s.now }
    ensures { result ≡ rule_of version s.now }
{
    match version {
        Version::One => CapacityRule::Strong,
        Version::Two => named_rule(s),
    }
}
