//! The sizes of the lines of a band.
ghost use Rattle.std.specs.Prelude.{◌≡◌, ℕ, ◌<◌, ◌≤◌, ◌++◌, ◌∷◌, [], length, map, replicate, IfOk, OnOk};
ghost use Rattle.xs_bits.specs.Counts.{AreCounts};
ghost use Rattle.xs_lists.specs.Spelling.{upto};
ghost use Rattle.xs_params.specs.Geometry.{bands_of};
ghost use Rattle.xs_geometry.specs.SliceLines.{AreLinesOf, rows_held};
ghost use Rattle.xs_signal.specs.Lines.{entries_of};
ghost use Rattle.xs_rate.specs.Content.{planes_of};
ghost use Rattle.xs_rate.specs.Laws.{AreSmall, IsSmallRow};
ghost use Rattle.xs_sizes.specs.Lengths.{AreLengths};
ghost use Rattle.xs_sizes.specs.LineSizes.{AreAdded};
ghost use Rattle.xs_sizes.specs.Counted.{IsBandCounted};

use crate::line::{LinePlanes, LineSizes, line_sizes};
use std::alloc::Global;
use xs_geometry::{Geometry, SliceRows};
use xs_groups::count_planes;
use xs_io::Memory;

/// The sizes of the lines of a band: the first line, the flags that a line has, and the lines in turn.
#[derive(Drop)]
pub struct BandCounts {
    pub first: u32,
    pub flags: u16,
    pub lines: Vec<LineSizes>,
}

/// What is counted, and what the bits of counts are.
#[derive(Clone, Copy)]
pub struct Counting<'a> {
    pub geometry: &'a Geometry,
    pub rows: &'a SliceRows,
    pub table: &'a [[u8; 16]],
    pub signs: bool,
}

/// The planes of a line's code groups, and of the line above.
#[derive(Drop)]
pub struct LineScratch {
    pub planes: Vec<u8>,
    pub above: Vec<u8>,
}

impl LineScratch {
    /// Room that grows with the lines.
    pub fn new(alloc: Global) -> LineScratch {
        LineScratch {
            planes: Vec::new(alloc),
            above: Vec::new(alloc),
        }
    }
}

/// The sizes of the lines of a band, in an empty list.
pub fn count_band(
    counting: &Counting,
    band: u32,
    scratch: &mut LineScratch,
    room: Vec<LineSizes>,
) -> Result<BandCounts, Memory>
    requires lines { (slice : ℕ) × AreLinesOf counting.now.geometry.now slice counting.now.rows.now }
    requires band { band < bands_of counting.now.geometry.now }
    requires table { AreLengths counting.now.table.now }
    requires small { AreSmall (rows_held counting.now.rows.now) }
    requires empty { room.items ≡ [] }
    ensures { IfOk result (IsBandCounted counting.now.geometry.now counting.now.rows.now counting.now.signs band) }
{
    let groups = (counting.geometry.band_width(band) + 3) / 4;
    let (first, end) = counting.rows.lines(band);
    reset(scratch, groups)?;
    let mut lines = room;
    'lines: for line in first..end {
        add_line(&mut lines, scratch, counting, counting.rows.row(band, line))?;
    }
    Ok(BandCounts {
        first,
        flags: ((groups + 7) / 8) as u16,
        lines,
    })
}

// No planes of so many code groups.
fn reset(scratch: &mut LineScratch, groups: u32) -> Result<(), Memory>
    ensures planes { OnOk result (scratch.new.planes.items ≡ replicate groups 0) }
    ensures above { OnOk result (scratch.new.above.items ≡ replicate groups 0) }
{
    set_zeros(&mut scratch.planes, groups)?;
    set_zeros(&mut scratch.above, groups)
}

// So many zeros in place of what is there.
fn set_zeros(items: &mut Vec<u8>, count: u32) -> Result<(), Memory>
    ensures { OnOk result (items.new.items ≡ replicate count 0) }
{
    items.clear();
    items.resize(count as usize, 0).map_err(|_| Memory)
}

// Adds the sizes of a line, whose planes are then those above.
fn add_line(
    lines: &mut Vec<LineSizes>,
    scratch: &mut LineScratch,
    counting: &Counting,
    row: &[i32],
) -> Result<(), Memory>
    requires table { AreLengths counting.now.table.now }
    requires small { IsSmallRow (entries_of row.now) }
    requires few { length scratch.old.planes.items ≤ 2048 }
    requires above { length scratch.old.above.items ≡ length scratch.old.planes.items }
    requires counts { AreCounts scratch.old.above.items }
    ensures added { OnOk result (AreAdded scratch.old.above.items (map (planes_of (entries_of row.now)) (upto (length scratch.old.planes.items))) (entries_of row.now) counting.now.signs lines.old.items lines.new.items) }
    ensures above { OnOk result (scratch.new.above.items ≡ map (planes_of (entries_of row.now)) (upto (length scratch.old.planes.items))) }
    ensures size { OnOk result (length scratch.new.planes.items ≡ length scratch.old.planes.items) }
{
    fill(scratch, row);
    let planes = LinePlanes {
        planes: scratch.planes.as_slice(),
        above: scratch.above.as_slice(),
    };
    let line = line_sizes(counting.table, &planes, row, counting.signs);
    push_line(lines, line)?;
    rise(scratch);
    Ok(())
}

// Appends the sizes of a line.
fn push_line(lines: &mut Vec<LineSizes>, line: LineSizes) -> Result<(), Memory>
    ensures { OnOk result (lines.new.items ≡ lines.old.items ++ line ∷ []) }
{
    lines.push(line).map_err(|_| Memory)
}

// Counts the planes of a row.
fn fill(scratch: &mut LineScratch, row: &[i32])
    requires small { IsSmallRow (entries_of row.now) }
    requires few { length scratch.old.planes.items ≤ 2048 }
    ensures planes { scratch.new.planes.items ≡ map (planes_of (entries_of row.now)) (upto (length scratch.old.planes.items)) }
    ensures counts { AreCounts scratch.new.planes.items }
    ensures above { scratch.new.above.items ≡ scratch.old.above.items }
{
    count_planes(row, scratch.planes.as_mut_slice());
}

// Takes the planes for those above.
fn rise(scratch: &mut LineScratch)
    requires { length scratch.old.above.items ≡ length scratch.old.planes.items }
    ensures planes { scratch.new.planes.items ≡ scratch.old.planes.items }
    ensures above { scratch.new.above.items ≡ scratch.old.planes.items }
{
    copy(scratch.planes.as_slice(), scratch.above.as_mut_slice());
}

// Copies a list into another one of its length.
fn copy(from: &[u8], into: &mut [u8])
    requires { length into.old ≡ length from.now }
    ensures { into.new ≡ from.now }
{
    into.copy_from_slice(from);
}
