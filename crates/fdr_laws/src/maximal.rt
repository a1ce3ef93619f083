//! What the exceedances of rows are.

ghost use Rattle.std.specs.Prelude.{◌≡◌, ◌↔◌, ℕ, List, Contains, Some, take, slice_index_or};
ghost use Rattle.fdr_exceed.specs.Exceedances.{WatchStep, ResetStep, ended_by, exceedances, rows_since};
ghost use Rattle.fdr_exceed.specs.declared.hits.HitList.{HitList};
ghost use Rattle.fdr_exceed.specs.declared.rule.Rule.{Rule};
ghost use Rattle.fdr_laws.specs.Maximal.{IsExceedance, IsExceedanceLine};

/// A law, and no work: the exceedances of a rule are the maximal lists of neighbouring hits of one stretch that are long enough,
/// and there are no others. A step ends one exactly where such a list ends with the rule's rows before it, and has its first row,
/// its length and its peak; so each line is that of such a list, and each such list has its line.
pub fn exceedances_are_maximal()
    ensures places { (rule : Rule) (steps : List WatchStep) (i : ℕ) (list : HitList)
        → (ended_by rule (rows_since rule (take i steps)) (slice_index_or steps i ResetStep) ≡ Some list) ↔ IsExceedance rule steps i list }
    ensures lines { (rules : List Rule) (steps : List WatchStep) (line : List ℕ)
        → Contains (exceedances rules steps) line ↔ IsExceedanceLine rules steps line }
{}
