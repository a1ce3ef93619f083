//! Exceedances: where the values of parameters leave limits that rules state.
//!
//! A rule watches one parameter. Its rows are looked at stretch by stretch, where a stretch is as many rows as no gap and
//! no break of the frame counter parts. Neighbouring rows beyond the limit make an exceedance where they are enough.
#![tactic(auto)]

mod fault;
mod hits;
mod rule;
mod rules;
mod text;
mod watch;
mod window;
mod windows;

pub use fault::{RuleFault, RulesError};
pub use rules::Rules;
pub use text::rule_fault_text;
pub use watch::Watch;
