// A picture's raw bytes are written, so many rows at once.
ghost use Rattle.xs_params.specs.Picture.{raw_bytes};
ghost use Rattle.xs_endings.specs.Ends.{change_of};
ghost use Rattle.xs_endings.specs.Steps.{IsGiven};

use std::alloc::Global;
use xs_endings::{Stop, give};
use xs_io::Sink;
use xs_params::Planes;
use xs_samples::{RowRange, write_rows};

/// Writes a raw picture. Where that stops, a front of it was given.
pub fn write_raw<W: Sink>(alloc: Global, planes: &Planes, output: &mut W) -> Result<(), Stop>
    ensures { IsGiven (change_of (W.held output.old) (W.held output.new) (W.faults output.old) (W.faults output.new)) (raw_bytes planes.now) result }
{
    let shape = planes.shape();
    let components = shape.format.components();
    let mut rows = RowRange::front(shape);
    'chunks: while rows.component < components {
        let bytes = write_rows(alloc, planes, rows)?;
        give(output, bytes.as_slice())?;
        rows = rows.next(shape);
    }
    Ok(())
}
