//! The parameters of the samples.

ghost use Rattle.std.specs.Prelude.{◌≡◌, ◌<◌, ◌^◌, ◌++◌, IfOk, OnOk, length, map};
ghost use Rattle.std.specs.List.{range_with_len};
ghost use Rattle.fdr_sampler.specs.Kept.{owners_of};

use fdr_check::push;
use fdr_table::{NoMemory, Param};
use std::alloc::Global;

/// Adds the parameter with this index once for each of its samples.
fn add_owner(owners: &mut Vec<u32>, param: u32, rate: u32) -> Result<(), NoMemory>
    ensures { OnOk result (owners.new.items ≡ owners.old.items ++ map (λ _. param) (range_with_len 0 rate)) }
{
    for _index in 0..rate {
        push(owners, param)?;
    }
    Ok(())
}

/// The index of the parameter of each sample of a superframe, by the sample's number.
pub(crate) fn owners_of(alloc: Global, params: &[Param]) -> Result<Vec<u32>, NoMemory>
    requires { length params.now < 2 ^ 32 }
    ensures { IfOk result (λ v. v.items ≡ owners_of params.now) }
{
    let mut owners = Vec::new(alloc);
    for (index, param) in params.iter().enumerate() {
        add_owner(&mut owners, index as u32, param.rate)?;
    }
    Ok(owners)
}
