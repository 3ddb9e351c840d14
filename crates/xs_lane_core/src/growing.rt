// Lists that grow.
ghost use Rattle.std.specs.Prelude.{◌≡◌, ◌∷◌, ◌++◌, [], IfOk, OnOk, OnErr};

use std::alloc::Global;
use xs_io::Memory;

// Where memory is wanting the list is as before.
pub fn keep<T: Drop>(list: &mut Vec<T>, item: T) -> Result<(), Memory>
    ensures ok { OnOk result (list.new.items ≡ list.old.items ++ item ∷ []) }
    ensures err { OnErr result (list.new.items ≡ list.old.items) }
{
    list.push(item).map_err(|_| Memory)
}

pub fn copy_of<T: Copy + Drop>(alloc: Global, items: &[T]) -> Result<Vec<T>, Memory>
    ensures { IfOk result (λ v. v.items ≡ items.now) }
{
    Vec::from_slice(alloc, items).map_err(|_| Memory)
}
