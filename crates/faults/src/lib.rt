// The numbers of the assembler's and the lister's refusals.

#![tactic(auto)]

ghost use Rattle.std.specs.Prelude.{◌≡◌};
ghost use Rattle.assembly_rules.specs.Assembly.{number_of};

use assembly_rules::Fault;

pub fn number_of(e: Fault) -> u8
    ensures { result ≡ number_of e }
{
    match e {
        Fault::NotALine => 30,
        Fault::NoSuchMode => 31,
        Fault::BranchTooFar => 32,
        Fault::TooDeep => 33,
        Fault::NoRoom => 34,
    }
}
