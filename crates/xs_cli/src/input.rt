// Reading the input.
ghost use Rattle.xs_endings.specs.Ends.{IsLater, change_of};
ghost use Rattle.xs_cli.specs.Steps.{IsRead};

use std::alloc::Global;
use xs_endings::Stop;
use xs_io::{Octets, Source, TakeFault, take_exact};

/// A run has at most so many pictures, 'Runs'.
pub const MOST_PICTURES: u32 = 256;

/// All was done.
pub const DONE: u8 = 0;

/// Reads at most so many bytes; fewer come only at the end.
pub fn read<R: Source>(alloc: Global, input: &mut R, want: usize) -> Result<Octets, Stop>
    ensures read { IsRead want (change_of (R.left input.old) (R.left input.new) (R.faults input.old) (R.faults input.new)) result }
    ensures later { IsLater (change_of (R.left input.old) (R.left input.new) (R.faults input.old) (R.faults input.new)) }
{
    match take_exact(alloc, input, want) {
        Ok(bytes) => Ok(bytes),
        Err(TakeFault::Failed) => Err(Stop::ReadFault),
        Err(TakeFault::Limit | TakeFault::Memory) => Err(Stop::Memory),
    }
}
