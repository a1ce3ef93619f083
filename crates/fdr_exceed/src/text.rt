//! The texts of exceedances and of faults.

ghost use Rattle.std.specs.Prelude.{◌≡◌, ◌≤◌, length};
ghost use Rattle.fdr_exceed.specs.Lines.{exceed_text, fault_of_rules_text};

use crate::fault::RuleFault;
use crate::hits::HitList;
use crate::rule::Rule;
use fdr_listing::{Line, value_text};

/// The line `exceed,NAME,COUNTER,SUBFRAME,WORD,LENGTH,PEAK` of a rule's exceedance.
#[tactic(auto, using(crate::proofs::LineLengths::line_parts), unfolding(crate::specs::Lines::exceed_text))]
pub(crate) fn exceed_line(rule: &Rule, list: &HitList) -> Line
    requires { rule.now.decimals ≤ 9 }
    ensures { result ≡ exceed_text rule.now list.now }
{
    let mut line = Line::new();
    line.add(b"exceed,");
    line.add(rule.name.bytes());
    line.add(b",");
    line.add_number(u64::from(list.first.counter));
    line.add(b",");
    line.add_number(u64::from(list.first.subframe));
    line.add(b",");
    line.add_number(u64::from(list.first.word));
    line.add(b",");
    line.add_number(list.length);
    line.add(b",");
    line.add(value_text(list.peak, rule.decimals).bytes());
    line.add(b"\n");
    line
}

/// What is wrong with rules, in words. It has no line feed.
#[tactic(auto, using(crate::proofs::LineLengths::line_parts), unfolding(crate::specs::Lines::fault_of_rules_text))]
pub fn rule_fault_text(fault: RuleFault) -> Line
    ensures text { result ≡ fault_of_rules_text fault }
    ensures short { length result ≤ 19 }
{
    let mut line = Line::new();
    match fault {
        RuleFault::Shape => line.add(b"shape"),
        RuleFault::Number { field } => {
            line.add(b"number in field ");
            line.add_number(u64::from(field));
        }
        RuleFault::Name => line.add(b"name"),
        RuleFault::Unknown => line.add(b"unknown name"),
        RuleFault::Twice => line.add(b"name used twice"),
        RuleFault::Size => line.add(b"too large"),
    }
    line
}
