//! The words of a recording: what each word slot has, of the bus words that came before it.
//!
//! A parameter takes its raw number from a field of the last word of its bus, label and SDI that has odd parity. Where the
//! parameter has an age and that word is older or none came, the raw number is all ones; a parameter that tells freshness
//! is 1 where the word is fresh, and 0 where it is too old or none came. A sample takes the raw value of its parameter at the slot of its
//! earliest part, and each of its parts carries a piece of this one value. Bus words are given, and slots drawn, in the
//! order of their times. Of those that come at one time, the order counts only among words of one bus and label.
#![tactic(auto)]

mod empty;
mod held_words;
mod law;
mod moment;
mod owners;
mod pieces;
mod sampler;
mod schedule;
mod slot_time;
mod source;
mod timed_word;

pub use law::either_order;
pub use sampler::Sampler;
pub use slot_time::SlotTime;
