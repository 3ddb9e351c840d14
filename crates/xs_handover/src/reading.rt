// The blocks of a slice are read of its bytes.
ghost use Rattle.std.specs.Prelude.{◌≡◌, ◌<◌, ◌^◌, length, IfOk, IfErr};
ghost use Rattle.xs_params.specs.Accepted.{IsAccepted};
ghost use Rattle.xs_params.specs.Geometry.{slice_count};
ghost use Rattle.xs_slice_read.specs.Unit.{IsUnitRead};
ghost use Rattle.xs_handover.specs.Handing.{AreBlocksOf, IsRefusal, source_of};

use crate::block::RowBlock;
use crate::blocks::Handed;
use crate::fault::HandFault;
use crate::header::copy_of;
use crate::piece::{Piece, SliceSource};
use std::alloc::Global;
use std::sync::Arc;
use xs_faults::SliceFault;
use xs_geometry::{Geometry, SliceRows};
use xs_io::{Memory, Octets};
use xs_params::Header;
use xs_slice_read::read_unit;
use xs_stripe::slice_edges;

// Reads the unit of a slice.
fn read_rows(
    alloc: Global,
    header: &Header,
    slice: u32,
    bytes: &[u8],
) -> Result<SliceRows, HandFault>
    requires few { length bytes.now < 2 ^ 32 }
    requires accepted { IsAccepted header.now }
    requires there { slice < slice_count header.now }
    ensures read { IfOk result (λ rows. IsUnitRead header.now slice rows bytes.now) }
    ensures refused { IfErr result (IsRefusal (source_of header.now slice bytes.now)) }
{
    match read_unit(alloc, header, slice, bytes) {
        Ok(rows) => Ok(rows),
        Err(SliceFault::Memory) => Err(HandFault::Memory),
        Err(fault) => Err(HandFault::Slice(fault)),
    }
}

// The slice, with an owner.
fn shared(alloc: Global, source: SliceSource) -> Result<Arc<SliceSource>, Memory>
    ensures { IfOk result (λ owner. owner.value ≡ source) }
{
    Arc::new(alloc, source).map_err(|_| Memory)
}

// One more owner of a slice.
fn again(source: &Arc<SliceSource>) -> Result<Arc<SliceSource>, Memory>
    ensures { IfOk result (λ other. other.value ≡ source.now.value) }
{
    Arc::try_clone(source).map_err(|_| Memory)
}

// The blocks of a slice whose rows were read.
fn blocks_of(alloc: Global, source: SliceSource, rows: SliceRows) -> Result<Handed, Memory>
    requires accepted { IsAccepted source.header }
    requires there { source.slice < slice_count source.header }
    requires read { IsUnitRead source.header source.slice rows source.bytes }
    ensures { IfOk result (AreBlocksOf source) }
{
    let slice = source.slice;
    let slices = Geometry::of(&source.header).slices();
    let (up, down) = slice_edges(alloc, &source.header, slice, &rows)?;
    let source = shared(alloc, source)?;
    let up = if slice > 0 {
        Some(RowBlock::new(alloc, again(&source)?, Piece::Up(up))?)
    } else {
        None
    };
    let down = if slice + 1 < slices {
        Some(RowBlock::new(alloc, again(&source)?, Piece::Down(down))?)
    } else {
        None
    };
    let body = RowBlock::new(alloc, source, Piece::Body(rows))?;
    Ok(Handed { body, up, down })
}

// Reads the unit of a slice, and takes all memory that its blocks need.
pub(crate) fn read_blocks(
    alloc: Global,
    header: &Header,
    slice: u32,
    bytes: Octets,
) -> Result<Handed, HandFault>
    requires few { length bytes < 2 ^ 32 }
    requires accepted { IsAccepted header.now }
    requires there { slice < slice_count header.now }
    ensures read { IfOk result (AreBlocksOf (source_of header.now slice bytes)) }
    ensures refused { IfErr result (IsRefusal (source_of header.now slice bytes)) }
{
    let rows = read_rows(alloc, header, slice, bytes.as_slice())?;
    let source = SliceSource {
        header: copy_of(alloc, header)?,
        slice,
        bytes,
    };
    Ok(blocks_of(alloc, source, rows)?)
}
