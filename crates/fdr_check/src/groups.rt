//! The places of a table by parameter.

ghost use Rattle.std.specs.Prelude.{◌≡◌, ◌<◌, ◌++◌, ◌∷◌, [], IfOk, OnOk, All, length};
ghost use Rattle.fdr_table.specs.Rows.{PlaceRow};
ghost use Rattle.fdr_check.specs.Groups.{grouped};

use crate::memory::push;
use fdr_table::{NoMemory, Place};
use std::alloc::Global;
use std::marker::Model;

/// The places of a parameter, in the order of their rows.
#[derive(Drop)]
pub struct Group {
    places: Vec<Place>,
}

impl Model for Group {
    ghost use Rattle.std.specs.Prelude.{List};
    ghost use Rattle.fdr_table.specs.Rows.{PlaceRow};

    ghost Value = { List PlaceRow };

    ghost view = { λ g. g.places.items };
}

impl Group {
    fn new(alloc: Global) -> Group
        ensures { result ≡ [] }
    {
        Group {
            places: Vec::new(alloc),
        }
    }

    fn add(&mut self, place: Place) -> Result<(), NoMemory>
        ensures { OnOk result (self.new ≡ self.old ++ place ∷ []) }
    {
        push(&mut self.places, place)
    }

    pub fn places(&self) -> &[Place]
        ensures { result.now ≡ self.now }
    {
        self.places.as_slice()
    }
}

/// Groups with no place yet.
fn empty_groups(alloc: Global, count: usize) -> Result<Vec<Group>, NoMemory>
    ensures { IfOk result (λ groups. groups.items ≡ grouped [] count) }
{
    let mut groups = Vec::new(alloc);
    for _index in 0..count {
        push(&mut groups, Group::new(alloc))?;
    }
    Ok(groups)
}

/// The places of each of the first `count` parameters.
pub fn places_by_param(
    alloc: Global,
    count: usize,
    places: &[Place],
) -> Result<Vec<Group>, NoMemory>
    requires { All (λ (p : PlaceRow). p.param < count) places.now }
    ensures { IfOk result (λ groups. groups.items ≡ grouped places.now count) }
{
    let mut groups = empty_groups(alloc, count)?;
    for place in places {
        groups[place.param as usize].add(*place)?;
    }
    Ok(groups)
}
