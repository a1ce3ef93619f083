//! Why a table is refused, in words.

ghost use Rattle.std.specs.Prelude.{◌≡◌, ◌≤◌, ◌++◌, length};
ghost use Rattle.fdr_messages.specs.Messages.{fault_words, fault_numbers, overlap_numbers, rate_numbers, table_message};

use fdr_line::Line;
use fdr_table::TableFault;

/// The message that a table is refused for this fault in this row.
#[tactic(auto, using(fdr_line::proofs::Lengths::field_numbers))]
pub fn table_message(program: &[u8], row: u32, fault: &TableFault) -> Line
    requires { length program.now ≤ 12 }
    ensures { result ≡ table_message program.now row fault.now }
{
    let mut line = Line::new();
    line.add(program);
    line.add(b": table row ");
    line.add_number(u64::from(row));
    line.add(b": ");
    line.add(fault_words(fault));
    add_numbers(&mut line, fault);
    line
}

/// What is wrong with the table, in words, up to the first number that the fault names.
fn fault_words(fault: &TableFault) -> &'static [u8]
    ensures words { result.now ≡ fault_words fault.now }
    ensures short { length result.now ≤ 19 }
{
    match fault {
        TableFault::Shape => b"shape",
        TableFault::Number { .. } => b"number in field ",
        TableFault::NoFrame => b"no frame row",
        TableFault::TwoFrames => b"second frame row",
        TableFault::Name => b"name",
        TableFault::Twice => b"name used twice",
        TableFault::Unknown => b"unknown name",
        TableFault::Size => b"too large",
        TableFault::Place => b"place",
        TableFault::OnSync => b"on a sync word",
        TableFault::OnCounter => b"on the counter word",
        TableFault::Overlap { .. } => b"overlap with row ",
        TableFault::Parts => b"parts",
        TableFault::Rate { .. } => b"rate ",
        TableFault::TooMany => b"too many parts",
    }
}

/// Adds the numbers that a fault names.
#[tactic(auto, using(fdr_line::proofs::Lengths::field_numbers))]
fn add_numbers(line: &mut Line, fault: &TableFault)
    requires { length line.old ≤ 57 }
    ensures { line.new ≡ line.old ++ fault_numbers fault.now }
{
    match fault {
        TableFault::Number { field } => line.add_number(u64::from(*field)),
        TableFault::Overlap {
            first,
            word,
            bit,
            ..
        } => add_overlap(line, *first, *word, *bit),
        TableFault::Rate { declared, counted } => add_rate(line, *declared, *counted),
        _ => {}
    }
}

/// Adds with which row a place shares a bit, and where.
#[tactic(auto, using(fdr_line::proofs::Lengths::field_numbers))]
fn add_overlap(line: &mut Line, first: u32, word: u32, bit: u8)
    requires { length line.old ≤ 57 }
    ensures { line.new ≡ line.old ++ overlap_numbers first word bit }
{
    line.add_number(u64::from(first));
    line.add(b" at word ");
    line.add_number(u64::from(word));
    line.add(b" bit ");
    line.add_number(u64::from(bit));
}

/// Adds the rate that a parameter declares, and the one that was counted.
#[tactic(auto, using(fdr_line::proofs::Lengths::field_numbers))]
fn add_rate(line: &mut Line, declared: u32, counted: u32)
    requires { length line.old ≤ 57 }
    ensures { line.new ≡ line.old ++ rate_numbers declared counted }
{
    line.add_number(u64::from(declared));
    line.add(b" declared, ");
    line.add_number(u64::from(counted));
    line.add(b" counted");
}
