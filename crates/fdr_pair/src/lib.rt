//! Recording a trace on two disks: a ring on each side of a twin. The images are compared and the one that is behind is brought
//! up to the other. Then blocks are put on both sides, either of which may fail, and announced after they are on every side that
//! hasn't.
#![tactic(auto)]

mod announce;
mod attach;
mod bring;
mod compare;
mod fault;
mod join;
mod lead;
mod look;
mod one_side;
mod open;
mod outcome;
mod put;
mod read;
mod record;
mod rings;
mod run;
mod runs;
mod session;
mod start;
mod trace;
mod words;

pub use announce::{announce_living, announce_on};
pub use attach::go_on;
pub use bring::{BringFault, bring_up};
pub use compare::compare_sides;
pub use fault::PairFault;
pub use join::{Follower, Joined, join_sides};
pub use lead::{is_far_behind, lead_of};
pub use look::{attach_on, scan_on};
pub use one_side::{put_on, put_unless_failed};
pub use open::{LivingSides, Opened, SideHeader, header_on, open_sides};
pub use outcome::PairOutcome;
pub use put::put_block;
pub use read::block_on;
pub use record::record_block;
pub use rings::PairRings;
pub use run::run_pair;
pub use runs::{SideRuns, find_runs};
pub use session::{PairSession, RecordingRoom};
pub use start::{PairStart, start_pair};
pub use trace::record_trace;
pub use words::{PairRequest, PairWordsFault, read_pair_words};
