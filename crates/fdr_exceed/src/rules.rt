ghost use Rattle.std.specs.Prelude.{◌≡◌, ◌<◌, ◌≤◌, ◌++◌, ◌∷◌, [], ℕ, true, IfOk, OnOk, Err, Some, None, length, map};
ghost use Rattle.csv.specs.Reading.{error_kind, stops_reader};
ghost use Rattle.csv.specs.Records.{fields_of};
ghost use Rattle.fdr_table.specs.Reading.{records_of};
ghost use Rattle.fdr_exceed.specs.Rules.{AreRulesInRange, IsRuleInRange, most_rule_bytes, most_rules};
ghost use Rattle.fdr_exceed.specs.RuleAnswers.{rule_refused};
ghost use Rattle.fdr_exceed.specs.RuleFaults.{first_rule_fault, rule_fault, rule_of, rules_fault, rules_of};
ghost use Rattle.fdr_exceed.specs.declared.fault.RuleFault.{RuleFault};
ghost use Rattle.fdr_exceed.specs.declared.fault.RuleFault.TheVariants as fault;
ghost use Rattle.fdr_exceed.specs.declared.rule.Rule.{Rule};

use crate::fault::{RuleFault, RulesError, refused};
use crate::rule::{Rule, read_rule};
use csv::{ByteRecord, Error, ErrorKind, ReaderBuilder};
use fdr_table::{NoMemory, Table};
use std::alloc::Global;
use std::marker::Model;

/// How many bytes the rules may have.
const MAX_BYTES: usize = 65_536;

/// Rules for the parameters of a table, in the order of their records.
#[derive(Drop)]
pub struct Rules {
    pub(crate) rules: Vec<Rule>,
    // How many parameters the table has.
    pub(crate) params: usize,
}

impl Model for Rules {
    ghost use Rattle.std.specs.Prelude.{List, length};
    ghost use Rattle.fdr_exceed.specs.declared.rule.Rule.{Rule};
    ghost use Rattle.fdr_exceed.specs.Rules.{AreRulesInRange};

    ghost Value = { List Rule };

    ghost view = { λ r. r.rules.items };

    ghost invariant = { λ r. AreRulesInRange r.params r.rules.items };
}

/// Why the next record of the rules' bytes didn't come. The bytes are in memory, so that their source doesn't fail, and
/// any bytes and any count of fields are a record: memory alone is left.
fn want_of_memory(error: &Error) -> NoMemory
    requires { stops_reader (error_kind error.now) ≡ true }
{
    match error.kind() {
        ErrorKind::Io(_) | ErrorKind::OutOfMemory => NoMemory,
        ErrorKind::Utf8 { .. }
        | ErrorKind::UnequalLengths { .. }
        | ErrorKind::Serialize(_)
        | ErrorKind::Deserialize { .. } => unreachable!(),
    }
}

impl Rules {
    /// The rules of these bytes for a table's parameters, or the first fault of the bytes and their records.
    ///
    /// The bytes are records of comma-separated fields: NAME, PARAM, KIND, LIMIT and COUNT. Rules of more than 65,536 bytes
    /// are refused for their size, at record 0, before any memory is taken. Of any others each record is judged before the
    /// next is read.
    #[tactic(auto, unfolding(crate::specs::RuleFaults::rules_fault))]
    pub fn read(alloc: Global, bytes: &[u8], table: &Table) -> Result<Rules, RulesError>
        ensures rules { IfOk result (λ r. r ≡ rules_of table.now (records_of bytes.now)) }
        ensures no_fault { IfOk result (λ r. rules_fault table.now bytes.now ≡ None) }
        ensures refused { (row : ℕ) (f : RuleFault) → result ≡ Err (rule_refused row f) → rules_fault table.now bytes.now ≡ Some (row, f) }
        ensures too_large { most_rule_bytes < length bytes.now → result ≡ Err (rule_refused 0 fault.Size) }
    {
        if MAX_BYTES < bytes.len() {
            return Err(refused(0, RuleFault::Size));
        }
        let rules = read_rules(alloc, bytes, table)?;
        Ok(Rules {
            rules,
            params: table.params().len(),
        })
    }
}

/// The rules of the records of these bytes, or the first fault of the records.
fn read_rules(alloc: Global, bytes: &[u8], table: &Table) -> Result<Vec<Rule>, RulesError>
    ensures rules { IfOk result (λ v. v.items ≡ rules_of table.now (records_of bytes.now)) }
    ensures no_fault { IfOk result (λ v. first_rule_fault table.now (records_of bytes.now) ≡ None) }
    ensures range { IfOk result (λ v. AreRulesInRange (length table.now.params) v.items) }
    ensures refused { (row : ℕ) (f : RuleFault) → result ≡ Err (rule_refused row f) → first_rule_fault table.now (records_of bytes.now) ≡ Some (row, f) }
{
    let reader = ReaderBuilder::new()
        .has_headers(false)
        .flexible(true)
        .from_reader(alloc, bytes);
    let mut rules = Vec::new(alloc);
    for row in reader.into_byte_records() {
        match row {
            Ok(row) => add_rule(&mut rules, table, &row)?,
            Err(error) => return Err(want_of_memory(&error).into()),
        }
    }
    Ok(rules)
}

/// Adds the rule of a record below those of the rules above it.
fn add_rule(rules: &mut Vec<Rule>, table: &Table, row: &ByteRecord) -> Result<(), RulesError>
    requires { length rules.old.items ≤ most_rules }
    ensures rule { OnOk result (rules.new.items ≡ rules.old.items ++ rule_of table.now (fields_of row.now) ∷ []) }
    ensures no_fault { OnOk result (rule_fault table.now (map (λ (a : Rule). a.name) rules.old.items) (fields_of row.now) ≡ None) }
    ensures range { OnOk result (IsRuleInRange (length table.now.params) (rule_of table.now (fields_of row.now))) }
    ensures few { OnOk result (length rules.old.items < most_rules) }
    ensures refused { (i : ℕ) (f : RuleFault) → result ≡ Err (rule_refused i f) → (i ≡ length rules.old.items)
        × (rule_fault table.now (map (λ (a : Rule). a.name) rules.old.items) (fields_of row.now) ≡ Some f) }
{
    match read_rule(row, table, rules) {
        Ok(rule) => {
            if rules.push(rule).is_err() {
                return Err(RulesError::NoMemory);
            }
            Ok(())
        }
        Err(fault) => Err(refused(rules.len() as u32, fault)),
    }
}
