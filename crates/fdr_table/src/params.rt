ghost use Rattle.std.specs.Prelude.{◌≡◌, ◌<◌, ◌++◌, [], ◌∷◌, All, IfErr, IfOk, None, length};
ghost use Rattle.fdr_table.specs.Bounds.{most_params};
ghost use Rattle.fdr_table.specs.Draft.{index_named};
ghost use Rattle.fdr_table.specs.Ranges.{IsParamInRange};

use crate::fault::NoMemory;
use crate::param::Param;
use std::alloc::Global;
use std::collections::HashMap;
use std::marker::Model;

/// Parameters in the order of their rows, which are found by their names.
#[derive(Drop)]
pub(crate) struct Params {
    list: Vec<Param>,
    by_name: HashMap<Vec<u8>, u32>,
}

impl Model for Params {
    ghost use Rattle.std.specs.Prelude.{List};
    ghost use Rattle.fdr_table.specs.Rows.{ParamRow};

    ghost Value = { List ParamRow };

    ghost use Rattle.fdr_table.specs.ByName.{AreByName};

    ghost view = { λ p. p.list.items };

    ghost invariant = { AreByName };
}

impl Params {
    /// No parameters.
    pub(crate) fn new(alloc: Global) -> Params
        ensures { result ≡ [] }
    {
        Params {
            list: Vec::new(alloc),
            by_name: HashMap::new(alloc),
        }
    }

    /// How many parameters there are.
    pub(crate) fn len(&self) -> usize
        ensures { result ≡ length self.now }
    {
        self.list.len()
    }

    /// The index of the parameter with this name.
    pub(crate) fn find(&self, name: &[u8]) -> Option<u32>
        ensures { result ≡ index_named self.now name.now }
    {
        self.by_name.get(name).copied()
    }

    /// Adds a parameter, whose name is new.
    pub(crate) fn push(&mut self, alloc: Global, param: Param) -> Result<(), NoMemory>
        requires new { index_named self.old param.name ≡ None }
        requires room { length self.old < most_params }
        ensures added { IfOk result (λ _. self.new ≡ self.old ++ param ∷ []) }
        ensures kept { IfErr result (λ _. self.new ≡ self.old) }
    {
        let name = param.name.bytes().to_vec(alloc)?;
        let index = self.list.len() as u32;
        // Room first, so that a failure changes neither the list nor the names.
        self.list.reserve(1)?;
        if self.by_name.insert(name, index).is_err() {
            return Err(NoMemory);
        }
        if self.list.push(param).is_err() {
            return Err(NoMemory);
        }
        Ok(())
    }

    /// The parameters.
    pub(crate) fn into_vec(self) -> Vec<Param>
        ensures items { result.items ≡ self }
        ensures ranges { All IsParamInRange result.items }
    {
        self.list
    }
}
