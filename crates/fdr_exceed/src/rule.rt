//! One rule, and the record that it is read from.

ghost use Rattle.std.specs.Prelude.{◌≡◌, ◌<◌, ◌≤◌, ◌^◌, ◌≤ℤ◌, neg_ℤ, pos, IfOk, IfErr, IfSome, Some, None, map, length, bytes_eq};
ghost use Rattle.std.specs.List.{list_any};
ghost use Rattle.csv.specs.Records.{fields_of};
ghost use Rattle.fdr_table.specs.Draft.{index_named};
ghost use Rattle.fdr_table.specs.Fields.{number_in, signed_within};
ghost use Rattle.fdr_table.specs.Reading.{field};
ghost use Rattle.fdr_exceed.specs.Rules.{IsRuleInRange};
ghost use Rattle.fdr_exceed.specs.RuleFaults.{rule_fault, rule_of, rule_kind_of, rule_misread, count_in, kind_in, limit_in};

use crate::fault::RuleFault;
use csv::ByteRecord;
use fdr_table::{Name, Param, Table, number_in};

/// The largest limit in size.
const MAX_LIMIT: u64 = 9_000_000_000_000_000_000;

/// The largest count of rows.
const MAX_COUNT: u64 = 1024;

/// How many rules there may be.
const MAX_RULES: usize = 256;

/// What a rule looks for.
#[derive(Clone, Copy, Debug, PartialEq, Eq)]
pub(crate) enum RuleKind {
    /// Values over the limit.
    Above,
    /// Values under the limit.
    Below,
    /// A change of the value, within so many rows, that is over the limit.
    Change,
}

/// A rule for one parameter of a table.
#[derive(Drop)]
pub(crate) struct Rule {
    pub(crate) name: Name,
    // The index of its parameter in the table.
    pub(crate) param: usize,
    // Digits of the parameter's values after the point.
    pub(crate) decimals: u8,
    pub(crate) kind: RuleKind,
    pub(crate) limit: i64,
    // Of `Above` and `Below` how many rows make an exceedance, and of `Change` within how many the value changes.
    pub(crate) count: u16,
}

/// The kind, the limit and the count of a rule.
#[derive(Clone, Copy)]
struct Numbers {
    kind: RuleKind,
    limit: i64,
    count: u16,
}

/// A field of a record, empty where the record has no such field.
#[tactic(auto, using(fdr_table::proofs::RowFacts::fields))]
fn field_at(row: &ByteRecord, index: u8) -> &[u8]
    ensures { result.now ≡ field (fields_of row.now) index }
{
    match row.get(usize::from(index)) {
        Some(bytes) => bytes,
        None => &[],
    }
}

/// A decimal number of at most `most` in size, with a `-` in front or none.
#[tactic(auto, unfolding(fdr_table::specs::Fields::signed_within))]
fn signed_within(field: &[u8], most: u64) -> Option<i64>
    requires { most < 2 ^ 63 }
    ensures exactly { result ≡ signed_within most field.now }
    ensures low { IfSome result (λ n. neg_ℤ (pos most) ≤ℤ n) }
    ensures high { IfSome result (λ n. n ≤ℤ pos most) }
{
    match field {
        [b'-', digits @ ..] => Some(-(number_in(digits, 0, most)? as i64)),
        _ => Some(number_in(field, 0, most)? as i64),
    }
}

/// A kind by its word.
#[tactic(auto, unfolding(crate::specs::RuleFaults::rule_kind_of))]
fn kind_of(field: &[u8]) -> Option<RuleKind>
    ensures { result ≡ rule_kind_of field.now }
{
    if field == b"above".as_slice() {
        Some(RuleKind::Above)
    } else if field == b"below".as_slice() {
        Some(RuleKind::Below)
    } else if field == b"change".as_slice() {
        Some(RuleKind::Change)
    } else {
        None
    }
}

/// The kind, the limit and the count of a record.
#[tactic(auto, unfolding(crate::specs::RuleFaults::rule_misread))]
fn read_numbers(row: &ByteRecord) -> Result<Numbers, RuleFault>
    ensures right { IfOk result (λ n. rule_misread (fields_of row.now) ≡ None) }
    ensures kind { IfOk result (λ n. kind_in (fields_of row.now) ≡ Some n.kind) }
    ensures limit { IfOk result (λ n. limit_in (fields_of row.now) ≡ Some n.limit) }
    ensures count { IfOk result (λ n. count_in (fields_of row.now) ≡ Some n.count) }
    ensures limit_low { IfOk result (λ n. neg_ℤ (pos 9000000000000000000) ≤ℤ n.limit) }
    ensures limit_high { IfOk result (λ n. n.limit ≤ℤ pos 9000000000000000000) }
    ensures some_rows { IfOk result (λ n. 1 ≤ n.count) }
    ensures few_rows { IfOk result (λ n. n.count ≤ 1024) }
    ensures misread { IfErr result (λ f. rule_misread (fields_of row.now) ≡ Some f) }
{
    let kind = kind_of(field_at(row, 2)).ok_or(RuleFault::Number { field: 2 })?;
    let limit = signed_within(field_at(row, 3), MAX_LIMIT).ok_or(RuleFault::Number { field: 3 })?;
    let count = number_in(field_at(row, 4), 1, MAX_COUNT).ok_or(RuleFault::Number { field: 4 })?;
    Ok(Numbers {
        kind,
        limit,
        count: count as u16,
    })
}

/// The index of the parameter with this name.
fn find_param(params: &[Param], name: &[u8]) -> Option<usize>
    ensures found { result ≡ index_named params.now name.now }
    ensures within { IfSome result (λ i. i < length params.now) }
{
    params.iter().position(|param| param.name.bytes() == name)
}

/// Whether one of these rules has the name.
fn has_rule(rules: &[Rule], name: &[u8]) -> bool
    ensures { result ≡ list_any (λ (a : Rule). bytes_eq a.name name.now) rules.now }
{
    rules.iter().any(|rule| rule.name.bytes() == name)
}

/// The rule of a record below those of the rules `above`.
pub(crate) fn read_rule(row: &ByteRecord, table: &Table, above: &[Rule]) -> Result<Rule, RuleFault>
    ensures rule { IfOk result (λ r. r ≡ rule_of table.now (fields_of row.now)) }
    ensures no_fault { IfOk result (λ r. rule_fault table.now (map (λ (a : Rule). a.name) above.now) (fields_of row.now) ≡ None) }
    ensures fault { IfErr result (λ f. rule_fault table.now (map (λ (a : Rule). a.name) above.now) (fields_of row.now) ≡ Some f) }
    ensures range { IfOk result (IsRuleInRange (length table.now.params)) }
    ensures few { IfOk result (λ r. length above.now < 256) }
{
    if row.len() != 5 {
        return Err(RuleFault::Shape);
    }
    let numbers = read_numbers(row)?;
    let Some(name) = Name::new(field_at(row, 0)) else {
        return Err(RuleFault::Name);
    };
    let params = table.params();
    let Some(param) = find_param(params, field_at(row, 1)) else {
        return Err(RuleFault::Unknown);
    };
    if has_rule(above, name.bytes()) {
        return Err(RuleFault::Twice);
    }
    if MAX_RULES <= above.len() {
        return Err(RuleFault::Size);
    }
    let watched = &params[param];
    Ok(Rule {
        name,
        param,
        decimals: watched.decimals,
        kind: numbers.kind,
        limit: numbers.limit,
        count: numbers.count,
    })
}
