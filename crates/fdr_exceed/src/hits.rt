//! The neighbouring hits of a rule.

ghost use Rattle.std.specs.Prelude.{◌≡◌, ◌+◌, ◌≤◌, ◌<◌, ◌^◌, ◌++◌, ◌∷◌, ℕ, ℤ, List, [], IfSome, None};
ghost use Rattle.fdr_recon.specs.declared.Row.{Row};
ghost use Rattle.fdr_exceed.specs.declared.rule.Rule.{Rule};
ghost use Rattle.fdr_exceed.specs.Exceedances.{compared as compared_of, ended_before, exceedance_of as exceedance_in, hit_at, hit_list, values_of, is_beyond as is_beyond_limit, least_hits as least_of};
ghost use Rattle.fdr_exceed.specs.Watching.{IsHits, IsWithinHits, further as further_of, one_longer};

use crate::rule::{Rule, RuleKind};
use fdr_recon::Row;

/// Neighbouring hits of a rule: the row of the first, how many they are, and the value or the change furthest from the limit.
#[derive(Clone, Copy, Debug, PartialEq, Eq)]
pub(crate) struct HitList {
    pub(crate) first: Row,
    pub(crate) length: u64,
    pub(crate) peak: i64,
}

/// What is kept of the rows of a rule's parameter in the current stretch.
#[derive(Drop)]
pub(crate) struct Hits {
    // The hits that end with the last row, where it is one.
    list: Option<HitList>,
}

impl Hits {
    /// Before the first row.
    pub(crate) fn new() -> Hits
        ensures hits { (rule : Rule) → IsHits rule [] result }
        ensures none { result.list ≡ None }
    {
        Hits { list: None }
    }

    /// Takes the next row of the rule's parameter, at which the rule compares x. Answers the exceedance that it ends.
    pub(crate) fn row(&mut self, rule: &Rule, row: &Row, x: Option<i64>) -> Option<HitList>
        requires few { IfSome self.old.list (λ list. list.length < 2 ^ 63) }
        ensures hits { (rows : List Row) → x ≡ compared_of rule.now.kind rule.now.count (values_of (rows ++ row.now ∷ []))
            → IsHits rule.now rows self.old → IsHits rule.now (rows ++ row.now ∷ []) self.new }
        ensures ended { (rows : List Row) → x ≡ compared_of rule.now.kind rule.now.count (values_of (rows ++ row.now ∷ []))
            → IsHits rule.now rows self.old → result ≡ ended_before rule.now rows row.now }
        ensures longer { (n : ℕ) → IsWithinHits n self.old → IsWithinHits (n + 1) self.new }
    {
        let list = self.list;
        match hit(rule, x) {
            Some(x) => {
                self.list = Some(longer(rule.kind, list, row, x));
                None
            }
            None => {
                self.list = None;
                exceedance_of(rule, list)
            }
        }
    }

    /// Ends the stretch. Answers the exceedance that ends with it.
    pub(crate) fn reset(&mut self, rule: &Rule) -> Option<HitList>
        ensures hits { (rows : List Row) → IsHits rule.now rows self.old → IsHits rule.now [] self.new }
        ensures ended { (rows : List Row) → IsHits rule.now rows self.old → result ≡ exceedance_in rule.now (hit_list rule.now rows) }
        ensures none { self.new.list ≡ None }
    {
        exceedance_of(rule, self.list.take())
    }
}

/// The list of hits, where it is long enough for an exceedance.
fn exceedance_of(rule: &Rule, list: Option<HitList>) -> Option<HitList>
    ensures { result ≡ exceedance_in rule.now list }
{
    match list {
        Some(list) if least_hits(rule) <= list.length => Some(list),
        _ => None,
    }
}

/// How many neighbouring hits make an exceedance.
fn least_hits(rule: &Rule) -> u64
    ensures { result ≡ least_of rule.now rule.now.kind }
{
    match rule.kind {
        RuleKind::Above | RuleKind::Below => u64::from(rule.count),
        RuleKind::Change => 1,
    }
}

/// What the rule compares with its limit, where that is a hit.
#[tactic(auto, unfolding(crate::specs::Exceedances::hit_at))]
fn hit(rule: &Rule, x: Option<i64>) -> Option<i64>
    ensures { (values : List ℤ) → x ≡ compared_of rule.now.kind rule.now.count values → result ≡ hit_at rule.now values }
{
    let x = x?;
    if is_beyond(rule, x) { Some(x) } else { None }
}

/// Whether x is beyond the rule's limit.
fn is_beyond(rule: &Rule, x: i64) -> bool
    ensures { result ≡ is_beyond_limit rule.now.kind rule.now.limit x }
{
    match rule.kind {
        RuleKind::Above | RuleKind::Change => rule.limit < x,
        RuleKind::Below => x < rule.limit,
    }
}

/// The list with one hit more, the row's, where the rule compares x.
fn longer(kind: RuleKind, list: Option<HitList>, row: &Row, x: i64) -> HitList
    requires { IfSome list (λ list. list.length < 2 ^ 63) }
    ensures { result ≡ one_longer kind list row.now x }
{
    match list {
        None => HitList {
            first: *row,
            length: 1,
            peak: x,
        },
        Some(list) => HitList {
            first: list.first,
            length: list.length + 1,
            peak: further(kind, x, list.peak),
        },
    }
}

/// The one of two that is further from the limit.
fn further(kind: RuleKind, x: i64, y: i64) -> i64
    ensures { result ≡ further_of kind x y }
{
    match kind {
        RuleKind::Above | RuleKind::Change => x.max(y),
        RuleKind::Below => x.min(y),
    }
}
