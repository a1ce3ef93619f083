//! The watch over the rows of a listing.

ghost use Rattle.std.specs.Prelude.{◌≡◌, ◌≢◌, ◌+◌, ◌≤◌, ◌<◌, ◌^◌, ◌++◌, ◌∷◌, ℕ, List, [], IfOk, None, IfSome, All, length, slice_get, slice_index};
ghost use Rattle.std.specs.Option.{option_to_list};
ghost use Rattle.circular_buffer.specs.Buffer.{Buffer};
ghost use Rattle.fdr_recon.specs.declared.Row.{Row};
ghost use Rattle.fdr_exceed.specs.declared.hits.Hits.{Hits};
ghost use Rattle.fdr_exceed.specs.declared.rule.Rule.{Rule};
ghost use Rattle.fdr_exceed.specs.declared.watch.Exceedance.{Exceedance};
ghost use Rattle.fdr_exceed.specs.Windows.{IsWatched};
ghost use Rattle.fdr_exceed.specs.Exceedances.{WatchStep, RowStep, ResetStep, exceedances};
ghost use Rattle.fdr_exceed.specs.Watching.{AreHits, AreNexts, AreSources, AreWindows, IsNextOf, IsWithinHits, RepresentsWatch, due_to, rule_at, with_ended};

use crate::hits::{HitList, Hits};
use crate::rule::Rule;
use crate::rules::Rules;
use crate::text::exceed_line;
use crate::window::Window;
use crate::windows::{Windows, all_windows, clear_windows, compared};
use circular_buffer::HeapCircularBuffer;
use fdr_listing::Line;
use fdr_recon::Row;
use fdr_table::NoMemory;
use std::alloc::Global;
use std::marker::Model;

/// An exceedance whose line wasn't taken yet.
#[derive(Clone, Copy, Debug, PartialEq, Eq)]
struct Exceedance {
    // The index of its rule.
    rule: usize,
    list: HitList,
}

/// Finds the exceedances of rules in rows that are given one after another.
#[derive(Drop)]
pub struct Watch {
    rules: Vec<Rule>,
    hits: Vec<Hits>,
    // Windows for changes, and for each rule the place of its own.
    windows: Vec<Option<Window>>,
    sources: Vec<usize>,
    // The first rule of each parameter, and for each rule the next one of its parameter; the number of rules where
    // there is none.
    first: Vec<usize>,
    next: Vec<usize>,
    due: HeapCircularBuffer<Exceedance>,
    rows: u64,
}

impl Model for Watch {
    ghost use Rattle.fdr_exceed.specs.Watching.{WatchKept, IsWatchKept};

    ghost Value = { WatchKept };

    ghost use Rattle.fdr_exceed.specs.View.{watch_kept};

    ghost view = { watch_kept };

    ghost invariant = { λ w. IsWatchKept (watch_kept w) w.due.capacity w.first.items w.next.items };
}

impl Watch {
    /// A watch before the first row. It makes room for the windows of all rules for changes. Fails only where memory ends.
    pub fn new(alloc: Global, rules: Rules) -> Result<Watch, NoMemory>
        ensures stands { IfOk result (λ w. RepresentsWatch w [] 0) }
        ensures rules { IfOk result (λ w. w.rules ≡ rules) }
        ensures nothing_due { IfOk result (λ w. w.due ≡ []) }
        ensures no_rows { IfOk result (λ w. w.rows ≡ 0) }
    {
        let Rules { rules, params } = rules;
        let hits = all_hits(alloc, &rules)?;
        let Windows { windows, sources } = all_windows(alloc, &rules)?;
        let first = first_rules(alloc, &rules, params)?;
        let next = next_rules(alloc, &rules)?;
        let due = HeapCircularBuffer::with_capacity(alloc, rules.len())?;
        Ok(Watch {
            rules,
            hits,
            windows,
            sources,
            first,
            next,
            due,
            rows: 0,
        })
    }

    /// Takes the next row of the listing, once no line is due. Its value is at most 4,300,000,000,000,000,000 in size, as
    /// every value of a parameter is. Takes no memory.
    pub fn row(&mut self, row: &Row)
        requires nothing_due { self.old.due ≡ [] }
        requires few_rows { self.old.rows < 2 ^ 63 }
        requires watched { IsWatched row.now.value }
        ensures stands { (steps : List WatchStep) (taken : ℕ) → RepresentsWatch self.old steps taken → RepresentsWatch self.new (steps ++ RowStep row.now ∷ []) taken }
        ensures rules { self.new.rules ≡ self.old.rules }
        ensures rows { self.new.rows ≡ self.old.rows + 1 }
    {
        let start = start_of(&self.rules, &self.first, row.param);
        step_rules(
            &self.rules,
            &self.next,
            start,
            row,
            &self.sources,
            &mut self.windows,
            &mut self.hits,
            &mut self.due,
        );
        self.rows += 1;
    }

    /// Ends a stretch, once no line is due. The end of a listing is given so. Takes no memory.
    pub fn reset(&mut self)
        requires nothing_due { self.old.due ≡ [] }
        ensures stands { (steps : List WatchStep) (taken : ℕ) → RepresentsWatch self.old steps taken → RepresentsWatch self.new (steps ++ ResetStep ∷ []) taken }
        ensures rules { self.new.rules ≡ self.old.rules }
        ensures rows { self.new.rows ≡ self.old.rows }
    {
        clear_windows(&mut self.windows);
        reset_rules(&self.rules, &mut self.hits, &mut self.due);
    }

    /// The line of the next exceedance that is decided, or none where each was taken. Takes no memory.
    pub fn take(&mut self) -> Option<Line>
        ensures line { (steps : List WatchStep) (taken : ℕ) → RepresentsWatch self.old steps taken → result ≡ slice_get (exceedances self.old.rules steps) taken }
        ensures stands { (steps : List WatchStep) (taken : ℕ) → RepresentsWatch self.old steps taken → RepresentsWatch self.new steps (taken + length (option_to_list result)) }
        ensures none { result ≡ None → self.new.due ≡ [] }
        ensures fewer { length self.new.due + length (option_to_list result) ≡ length self.old.due }
        ensures rules { self.new.rules ≡ self.old.rules }
        ensures rows { self.new.rows ≡ self.old.rows }
    {
        let exceedance = self.due.pop_front()?;
        let rule = &self.rules[exceedance.rule];
        Some(exceed_line(rule, &exceedance.list))
    }
}

/// What is kept for each rule before the first row.
fn all_hits(alloc: Global, rules: &[Rule]) -> Result<Vec<Hits>, NoMemory>
    ensures count { IfOk result (λ v. length v.items ≡ length rules.now) }
    ensures hits { IfOk result (λ v. AreHits rules.now [] v.items) }
    ensures short { IfOk result (λ v. All (IsWithinHits 0) v.items) }
{
    let mut hits = Vec::new(alloc);
    for _rule in rules {
        if hits.push(Hits::new()).is_err() {
            return Err(NoMemory);
        }
    }
    Ok(hits)
}

/// The first rule from `start` on for this parameter, or the number of rules where there is none.
fn next_of(rules: &[Rule], start: usize, param: usize) -> usize
    requires { start ≤ length rules.now }
    ensures { IsNextOf rules.now start param result }
{
    for i in start..rules.len() {
        if rules[i].param == param {
            return i;
        }
    }
    rules.len()
}

/// The first rule of each parameter.
fn first_rules(alloc: Global, rules: &[Rule], params: usize) -> Result<Vec<usize>, NoMemory>
    ensures count { IfOk result (λ v. length v.items ≡ params) }
    ensures first { IfOk result (λ v. (p : ℕ) → p < params → IsNextOf rules.now 0 p (slice_index v.items p)) }
{
    let mut first = Vec::new(alloc);
    for param in 0..params {
        if first.push(next_of(rules, 0, param)).is_err() {
            return Err(NoMemory);
        }
    }
    Ok(first)
}

/// For each rule the next one of its parameter.
fn next_rules(alloc: Global, rules: &[Rule]) -> Result<Vec<usize>, NoMemory>
    ensures { IfOk result (λ v. AreNexts rules.now v.items) }
{
    let mut next = Vec::new(alloc);
    for (i, rule) in rules.iter().enumerate() {
        if next.push(next_of(rules, i + 1, rule.param)).is_err() {
            return Err(NoMemory);
        }
    }
    Ok(next)
}

/// The first rule of a parameter, where `first` has that of each parameter of the table.
fn start_of(rules: &[Rule], first: &[usize], param: u32) -> usize
    requires first { (p : ℕ) → p < length first.now → IsNextOf rules.now 0 p (slice_index first.now p) }
    requires params { All (λ (r : Rule). r.param < length first.now) rules.now }
    ensures { IsNextOf rules.now 0 param result }
{
    match first.get(param as usize) {
        Some(start) => *start,
        None => rules.len(),
    }
}

/// Adds the exceedance that a rule ended, where there is one.
fn add(due: &mut HeapCircularBuffer<Exceedance>, rule: usize, ended: Option<HitList>)
    requires { length due.old.items < due.old.capacity }
    ensures items { due.new.items ≡ with_ended due.old.items rule ended }
    ensures room { due.new.capacity ≡ due.old.capacity }
{
    if let Some(list) = ended {
        due.push_back(Exceedance { rule, list });
    }
}

/// Gives the row to the rules of its parameter, from rule `start` on, in order.
fn step_rules(
    rules: &[Rule],
    next: &[usize],
    start: usize,
    row: &Row,
    sources: &[usize],
    windows: &mut [Option<Window>],
    hits: &mut [Hits],
    due: &mut HeapCircularBuffer<Exceedance>,
)
    requires start { IsNextOf rules.now 0 row.now.param start }
    requires next { AreNexts rules.now next.now }
    requires count { length hits.old ≡ length rules.now }
    requires nothing_due { due.old.items ≡ [] }
    requires room { due.old.capacity ≡ length rules.now }
    requires sources { AreSources rules.now sources.now }
    requires windows { length windows.old ≡ length rules.now }
    requires watched { IsWatched row.now.value }
    requires few { All (λ (h : Hits). IfSome h.list (λ list. list.length < 2 ^ 63)) hits.old }
    ensures windows { (steps : List WatchStep) → AreWindows rules.now sources.now steps windows.old
        → AreWindows rules.now sources.now (steps ++ RowStep row.now ∷ []) windows.new }
    ensures hits { (steps : List WatchStep) → AreWindows rules.now sources.now steps windows.old → AreHits rules.now steps hits.old
        → AreHits rules.now (steps ++ RowStep row.now ∷ []) hits.new }
    ensures due { (steps : List WatchStep) → AreWindows rules.now sources.now steps windows.old → AreHits rules.now steps hits.old
        → due.new.items ≡ due_to rules.now steps (RowStep row.now) (length rules.now) }
    ensures room { due.new.capacity ≡ due.old.capacity }
    ensures longer { (n : ℕ) → All (IsWithinHits n) hits.old → All (IsWithinHits (n + 1)) hits.new }
    ensures within { All (λ (e : Exceedance). e.rule < length rules.now) due.new.items }
{
    let mut i = start;
    while i < rules.len() {
        let x = compared(&rules[i], i, sources, windows, row.value);
        let ended = hits[i].row(&rules[i], row, x);
        add(due, i, ended);
        i = next[i];
    }
}

/// Ends the stretch for all rules, in order.
fn reset_rules(rules: &[Rule], hits: &mut [Hits], due: &mut HeapCircularBuffer<Exceedance>)
    requires count { length hits.old ≡ length rules.now }
    requires nothing_due { due.old.items ≡ [] }
    requires room { due.old.capacity ≡ length rules.now }
    ensures hits { (steps : List WatchStep) → AreHits rules.now steps hits.old → AreHits rules.now (steps ++ ResetStep ∷ []) hits.new }
    ensures due { (steps : List WatchStep) → AreHits rules.now steps hits.old → due.new.items ≡ due_to rules.now steps ResetStep (length rules.now) }
    ensures room { due.new.capacity ≡ due.old.capacity }
    ensures shorter { (n : ℕ) → All (IsWithinHits n) hits.old → All (IsWithinHits n) hits.new }
    ensures within { All (λ (e : Exceedance). e.rule < length rules.now) due.new.items }
{
    for (i, rule) in rules.iter().enumerate() {
        let ended = hits[i].reset(rule);
        add(due, i, ended);
    }
}
