//! Why a trace is refused, in words.

ghost use Rattle.std.specs.Prelude.{◌≡◌, ◌≤◌, length};
ghost use Rattle.fdr_messages.specs.Messages.{trace_fault_words, trace_message};

use fdr_bus::TraceFault;
use fdr_line::Line;

/// The message that a trace is refused for this fault of the record after so many good ones.
#[tactic(auto, using(fdr_line::proofs::Lengths::numbers))]
pub fn trace_message(program: &[u8], index: u64, fault: &TraceFault) -> Line
    requires { length program.now ≤ 12 }
    ensures { result ≡ trace_message program.now index fault.now }
{
    let mut line = Line::new();
    line.add(program);
    line.add(b": trace record ");
    line.add_number(index);
    line.add(b": ");
    line.add(trace_fault_words(fault));
    line
}

/// What is wrong with the trace, in words.
fn trace_fault_words(fault: &TraceFault) -> &'static [u8]
    ensures words { result.now ≡ trace_fault_words fault.now }
    ensures short { length result.now ≤ 20 }
{
    match fault {
        TraceFault::Kind => b"kind",
        TraceFault::Back => b"time goes back",
        TraceFault::Late => b"time too late",
        TraceFault::Truncated => b"truncated",
        TraceFault::Many => b"too many",
    }
}
