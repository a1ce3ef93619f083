//! The windows of the rules for changes. Rules for one parameter and for as many rows share one.

ghost use Rattle.std.specs.Prelude.{◌≡◌, ◌≤◌, ◌<◌, ◌+◌, ◌++◌, ◌∷◌, ◌==◌, ℕ, ℤ, List, [], IfOk, OnOk, IfSome, IsTrue, All, length, set, slice_index, if◌then◌else◌};
ghost use Rattle.fdr_exceed.specs.declared.rule.Rule.{Rule};
ghost use Rattle.fdr_exceed.specs.Windows.{IsWatched};
ghost use Rattle.fdr_exceed.specs.Exceedances.{compared as compared_of};
ghost use Rattle.fdr_exceed.specs.declared.rule.RuleKind.TheVariants as kind;
ghost use Rattle.fdr_exceed.specs.Watching.{AreSources, AreWindows, HasWindow, HaveWindows, cleared, pushed, rule_at, window_at, windows_given};

use crate::rule::{Rule, RuleKind};
use crate::window::Window;
use fdr_table::NoMemory;
use std::alloc::Global;

/// The windows of rules, and for each rule where its window is.
#[derive(Drop)]
pub(crate) struct Windows {
    pub(crate) windows: Vec<Option<Window>>,
    pub(crate) sources: Vec<usize>,
}

/// Windows for the rules, before the first row. It takes all the memory that they need.
pub(crate) fn all_windows(alloc: Global, rules: &[Rule]) -> Result<Windows, NoMemory>
    requires { All (λ (r : Rule). 1 ≤ r.count) rules.now }
    ensures count { IfOk result (λ w. length w.windows.items ≡ length rules.now) }
    ensures sources { IfOk result (λ w. AreSources rules.now w.sources.items) }
    ensures windows { IfOk result (λ w. AreWindows rules.now w.sources.items [] w.windows.items) }
{
    let mut windows = Vec::new(alloc);
    let mut sources = Vec::new(alloc);
    for i in 0..rules.len() {
        add_window(alloc, rules, i, &mut windows, &mut sources)?;
    }
    Ok(Windows { windows, sources })
}

/// Adds the window of rule i, or says whose window it shares.
fn add_window(
    alloc: Global,
    rules: &[Rule],
    i: usize,
    windows: &mut Vec<Option<Window>>,
    sources: &mut Vec<usize>,
) -> Result<(), NoMemory>
    requires within { i < length rules.now }
    requires counts { All (λ (r : Rule). 1 ≤ r.count) rules.now }
    requires had { HaveWindows rules.now i windows.old.items sources.old.items }
    ensures { OnOk result (HaveWindows rules.now (i + 1) windows.new.items sources.new.items) }
{
    match earlier(rules, i) {
        Some(j) => push_both(windows, sources, None, sources[j]),
        None => push_both(windows, sources, new_window(alloc, &rules[i])?, i),
    }
}

/// Adds a window and a place.
fn push_both(
    windows: &mut Vec<Option<Window>>,
    sources: &mut Vec<usize>,
    window: Option<Window>,
    source: usize,
) -> Result<(), NoMemory>
    ensures window { OnOk result (windows.new.items ≡ windows.old.items ++ window ∷ []) }
    ensures source { OnOk result (sources.new.items ≡ sources.old.items ++ source ∷ []) }
{
    if windows.push(window).is_err() || sources.push(source).is_err() {
        return Err(NoMemory);
    }
    Ok(())
}

/// A rule before rule i that may have the same window, if there is one.
fn earlier(rules: &[Rule], i: usize) -> Option<usize>
    requires { i < length rules.now }
    ensures before { IfSome result (λ j. j < i) }
    ensures kind { IfSome result (λ j. (rule_at rules.now j).kind ≡ (rule_at rules.now i).kind) }
    ensures param { IfSome result (λ j. (rule_at rules.now j).param ≡ (rule_at rules.now i).param) }
    ensures rows { IfSome result (λ j. (rule_at rules.now j).count ≡ (rule_at rules.now i).count) }
{
    for j in 0..i {
        if share_window(&rules[j], &rules[i]) {
            return Some(j);
        }
    }
    None
}

/// Whether two rules may share a window.
fn share_window(a: &Rule, b: &Rule) -> bool
    ensures kind { IsTrue result → a.now.kind ≡ b.now.kind }
    ensures param { IsTrue result → a.now.param ≡ b.now.param }
    ensures rows { IsTrue result → a.now.count ≡ b.now.count }
{
    match (a.kind, b.kind) {
        (RuleKind::Change, RuleKind::Change) => a.param == b.param && a.count == b.count,
        _ => false,
    }
}

/// The window of a rule before the first row, where it needs one.
fn new_window(alloc: Global, rule: &Rule) -> Result<Option<Window>, NoMemory>
    requires { 1 ≤ rule.now.count }
    ensures { IfOk result (λ w. HasWindow rule.now.kind rule.now.count w []) }
{
    match rule.kind {
        RuleKind::Above | RuleKind::Below => Ok(None),
        RuleKind::Change => Ok(Some(Window::new(alloc, rule.count)?)),
    }
}

/// What rule i compares with its limit at the next value of its parameter. A window of its own takes the value; one that it
/// shares has taken it.
pub(crate) fn compared(
    rule: &Rule,
    i: usize,
    sources: &[usize],
    windows: &mut [Option<Window>],
    value: i64,
) -> Option<i64>
    requires within { i < length windows.old }
    requires place { i < length sources.now }
    requires source { slice_index sources.now i < length windows.old }
    requires watched { IsWatched value }
    ensures windows { windows.new ≡ windows_given rule.now.kind sources.now i value windows.old }
    ensures value { (values : List ℤ) → HasWindow rule.now.kind rule.now.count (window_at windows.new (slice_index sources.now i)) (values ++ value ∷ [])
        → result ≡ compared_of rule.now.kind rule.now.count (values ++ value ∷ []) }
{
    match rule.kind {
        RuleKind::Above | RuleKind::Below => Some(value),
        RuleKind::Change => {
            let source = sources[i];
            push_own(windows, i, source, value);
            spread_of(&windows[source])
        }
    }
}

/// Gives the next value to window i, where its rule shares none of a rule before it.
fn push_own(windows: &mut [Option<Window>], i: usize, source: usize, value: i64)
    requires within { i < length windows.old }
    requires watched { IsWatched value }
    ensures { windows.new ≡ (if source == i then set windows.old i (pushed value (window_at windows.old i)) else windows.old) }
{
    if source == i {
        push_window(&mut windows[i], value);
    }
}

/// Gives a window the next value, where there is a window.
fn push_window(window: &mut Option<Window>, value: i64)
    requires { IsWatched value }
    ensures { window.new ≡ pushed value window.old }
{
    if let Some(window) = window {
        window.push(value);
    }
}

/// How far apart the values of a window lie, where it is full.
fn spread_of(window: &Option<Window>) -> Option<i64>
    ensures { (count : ℕ) (values : List ℤ) → HasWindow kind.Change count window.now values → result ≡ compared_of kind.Change count values }
{
    match window {
        Some(window) => window.spread(),
        None => None,
    }
}

/// Forgets the values of all windows.
pub(crate) fn clear_windows(windows: &mut [Option<Window>])
    ensures { (j : ℕ) → j < length windows.old → window_at windows.new j ≡ cleared (window_at windows.old j) }
{
    for i in 0..windows.len() {
        clear_window(&mut windows[i]);
    }
}

/// Forgets the values of a window, where there is one.
fn clear_window(window: &mut Option<Window>)
    ensures { window.new ≡ cleared window.old }
{
    if let Some(window) = window {
        window.clear();
    }
}
