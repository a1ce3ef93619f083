//! Room for one more item.

ghost use Rattle.std.specs.Prelude.{◌≡◌, ◌++◌, ◌∷◌, [], OnOk, IsErrOf};

use crate::SalvageFault;

/// Puts an item at the end of a list. Fails only where memory ends.
pub fn push<T: Drop>(items: &mut Vec<T>, item: T) -> Result<(), SalvageFault>
    ensures pushed { OnOk result (items.new.items ≡ items.old.items ++ item ∷ []) }
    ensures only { IsErrOf result SalvageFault.DiskFault → ⊥ }
{
    match items.push(item) {
        Ok(()) => Ok(()),
        Err(_) => Err(SalvageFault::NoMemory),
    }
}
