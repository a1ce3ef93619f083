//! Worked rules and exceedances.

ghost use Rattle.std.specs.Prelude.{◌≡◌, ◌+◌, ◌≤◌, ◌<◌, ◌^◌, [], length};

use fdr_exceed::{RuleFault, Rules, RulesError, Watch, rule_fault_text};
use fdr_recon::Row;
use fdr_table::Table;
use std::alloc::Global;
use std::process::Abort;

/// Two parameters of 12 bits: ALT in word 10 of each first subframe, and SPD in word 11 with one decimal.
const TABLE: &[u8] =
    b"F,64,2,1\nP,ALT,0,203,,11,12,U,1,1,0,0,16\nP,SPD,0,204,,11,12,U,1,1,0,1,16\nL,ALT,1,1,10,0,1,12,0,1\nL,SPD,1,1,11,0,1,12,0,1\n";

/// What a watch is given.
#[derive(Clone, Copy)]
enum Step {
    /// The counter of a frame, the index of a parameter and its value.
    Row(u16, u32, i8),
    Reset,
}

/// Adds the lines that are decided.
fn drain(rt: &impl Abort, watch: &mut Watch, lines: &mut Vec<u8>)
    ensures drained { watch.new.due ≡ [] }
    ensures rows { watch.new.rows ≡ watch.old.rows }
{
    while let Some(line) = watch.take() {
        lines.extend_from_slice(line.bytes()).expect(rt, "memory");
    }
}

/// Gives a step, and adds the lines that it decides.
fn give(rt: &impl Abort, watch: &mut Watch, step: &Step, lines: &mut Vec<u8>)
    requires drained { watch.old.due ≡ [] }
    requires few_rows { watch.old.rows < 2 ^ 62 }
    ensures drained { watch.new.due ≡ [] }
    ensures rows { watch.new.rows ≤ watch.old.rows + 1 }
{
    match step {
        Step::Row(counter, param, value) => watch.row(&Row {
            counter: *counter,
            subframe: 1,
            word: 10,
            param: *param,
            value: i64::from(*value),
        }),
        Step::Reset => watch.reset(),
    }
    drain(rt, watch, lines);
}

/// A watch by rules for the table.
fn watch_by(rt: &impl Abort, alloc: Global, rules: &[u8]) -> Watch
    ensures drained { result.due ≡ [] }
    ensures rows { result.rows ≡ 0 }
{
    let table = Table::read(alloc, TABLE).expect(rt, "a table");
    let rules = Rules::read(alloc, rules, &table).expect(rt, "the rules");
    Watch::new(alloc, rules).expect(rt, "memory")
}

/// The lines of these steps.
fn lines_of(rt: &impl Abort, alloc: Global, rules: &[u8], steps: &[Step]) -> Vec<u8>
    requires { length steps.now < 100 }
{
    let mut watch = watch_by(rt, alloc, rules);
    let mut lines = Vec::new(alloc);
    for step in steps {
        give(rt, &mut watch, step, &mut lines);
    }
    lines
}

/// The values 5, 7, 9, 3 and 8 of ALT in frames 0 to 4, and their end.
const FLIGHT: [Step; 6] = [
    Step::Row(0, 0, 5),
    Step::Row(1, 0, 7),
    Step::Row(2, 0, 9),
    Step::Row(3, 0, 3),
    Step::Row(4, 0, 8),
    Step::Reset,
];

#[test]
fn lists_exceedances_of_each_kind(rt: HostRuntime) {
    let rules = b"HI,ALT,above,4,2\nLO,ALT,below,4,1\nSTEP,ALT,change,4,2\n";
    let lines = lines_of(&rt, rt.alloc(), rules, &FLIGHT);
    assert!(rt;
        lines.as_slice()
            == b"exceed,HI,0,1,10,3,9\nexceed,LO,3,1,10,1,3\nexceed,STEP,3,1,10,2,6\n".as_slice()
    );
}

/// Rules of changes, and what is listed of the flight by them.
const CHANGES: &[(&str, &str)] = &[
    ("STEP,ALT,change,4,3\n", "exceed,STEP,3,1,10,2,6\n"),
    ("STEP,ALT,change,3,3\n", "exceed,STEP,2,1,10,3,6\n"),
    ("STEP,ALT,change,0,1\n", ""),
];

#[test]
fn lists_the_change_within_a_window(rt: HostRuntime) {
    for &(rules, expected) in CHANGES {
        let lines = lines_of(&rt, rt.alloc(), rules.as_bytes(), &FLIGHT);
        assert!(rt; lines.as_slice() == expected.as_bytes(), "{rules}");
    }
}

#[test]
fn a_stretch_ends_a_list(rt: HostRuntime) {
    let steps = [
        Step::Row(0, 0, 5),
        Step::Row(0, 1, 7),
        Step::Reset,
        Step::Row(9, 0, 5),
        Step::Row(9, 1, -7),
        Step::Reset,
    ];
    let none = lines_of(&rt, rt.alloc(), b"HI,ALT,above,4,2\n", &steps);
    let rules = b"LO,SPD,below,0,1\nHI,ALT,above,4,1\nSPD,SPD,above,6,1\n";
    let lines = lines_of(&rt, rt.alloc(), rules, &steps);
    assert!(rt;
        none.as_slice() == b"".as_slice()
            && lines.as_slice()
                == b"exceed,HI,0,1,10,1,5\nexceed,SPD,0,1,10,1,0.7\nexceed,LO,9,1,10,1,-0.7\nexceed,HI,9,1,10,1,5\n".as_slice()
    );
}

#[test]
fn names_faults(rt: HostRuntime) {
    assert!(rt;
        rule_fault_text(RuleFault::Number { field: 3 }).bytes() == b"number in field 3".as_slice()
            && rule_fault_text(RuleFault::Unknown).bytes() == b"unknown name".as_slice()
    );
}

/// Whether the rules are refused so.
fn is_refused(rt: &impl Abort, alloc: Global, rules: &[u8], row: u32, fault: RuleFault) -> bool {
    let table = Table::read(alloc, TABLE).expect(rt, "a table");
    Rules::read(alloc, rules, &table).err() == Some(RulesError::Refused { row, fault })
}

/// Rules, and the row and the fault for which they are refused.
const REFUSED_RULES: &[(&[u8], u32, RuleFault)] = &[
    (b"HI,ALT,above,4\n", 0, RuleFault::Shape),
    (b"HI,ALT,over,4,2\n", 0, RuleFault::Number { field: 2 }),
    (
        b"HI,ALT,above,9000000000000000001,2\n",
        0,
        RuleFault::Number { field: 3 },
    ),
    (
        b"HI,ALT,above,-9000000000000000000,1025\n",
        0,
        RuleFault::Number { field: 4 },
    ),
    (b"H I,NO,above,4,1\n", 0, RuleFault::Name),
    (b"HI,NO,above,4,1\n", 0, RuleFault::Unknown),
    (b"HI,ALT,above,4,1\nHI,SPD,below,4,1\n", 1, RuleFault::Twice),
];

#[test]
fn refuses_rules(rt: HostRuntime) {
    for &(rules, row, fault) in REFUSED_RULES {
        assert!(rt; is_refused(&rt, rt.alloc(), rules, row, fault));
    }
}

/// This many records, each with a name of its own.
fn many_rules(rt: &impl Abort, alloc: Global, count: u32) -> String {
    let mut text = String::new(alloc);
    for i in 0..count {
        let rule = format!(in alloc; "R{i},ALT,above,4,1\n").expect(rt, "memory");
        text.push_str(rule.as_str()).expect(rt, "memory");
    }
    text
}

#[test]
fn refuses_too_many_rules(rt: HostRuntime) {
    let alloc = rt.alloc();
    let bytes = vec![in alloc; b'X'; 65_537].expect(&rt, "memory");
    let text = many_rules(&rt, alloc, 257);
    assert!(rt;
        is_refused(&rt, alloc, &bytes, 0, RuleFault::Size)
            && is_refused(&rt, alloc, &bytes[..65_536], 0, RuleFault::Shape)
            && is_refused(&rt, alloc, text.as_bytes(), 256, RuleFault::Size)
    );
}
