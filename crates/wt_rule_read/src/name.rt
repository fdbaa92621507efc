//! The names of faults in printed lines.
ghost use Rattle.std.specs.Prelude.{◌≡◌};
ghost use Rattle.wt_rule_read.specs.FaultNames as spec;

use wt_rule_file::RuleFault;

/// The name of a fault of a rule file.
pub fn rules_name(fault: RuleFault) -> &'static str
    ensures { result.now ≡ spec.rules_name fault }
{
    match fault {
        RuleFault::Head => "Head",
        RuleFault::Syntax => "Syntax",
        RuleFault::Symbol => "Symbol",
        RuleFault::TooLong => "TooLong",
        RuleFault::Anchor => "Anchor",
        RuleFault::Weight => "Weight",
        RuleFault::Root => "Root",
        RuleFault::Atom => "Atom",
        RuleFault::Order => "Order",
        RuleFault::StatedWeight => "StatedWeight",
        RuleFault::NotProved => "NotProved",
        RuleFault::Count => "Count",
    }
}
