//! A plane is split into its bands, level by level in one buffer.
ghost use Rattle.std.specs.Prelude.{◌≡◌, ℕ, suc, ◌<◌, ◌≤◌, ◌+◌, ◌^◌, length, slice_index_or, [], IfOk};
ghost use Rattle.xs_signal.specs.Wavelet.{low_count, high_count, low_count_at, bands_of_plane};
ghost use Rattle.xs_signal.specs.Stripe.{rows_at};
ghost use Rattle.xs_wave.specs.Corners.{BelowWithin, IsRoomy, SameShape, part_at};
ghost use Rattle.xs_wave.specs.Planes.{plane_of, IsWide, HasSize, IsSmall};
ghost use Rattle.xs_wave.specs.Bands.{IsComponent, AreBandPlanes, ShowBands, split_of, band_count, first_number};
ghost use Rattle.xs_wave.specs.Steps.{AreQuarters, IsLevelSplit};
ghost use Rattle.xs_wave.specs.Levels.{split_by};

use crate::across::{copy_part, split_odd_rows, split_rows};
use crate::bands::BandPlanes;
use crate::columns::split_columns;
use crate::levels::Levels;
use crate::planes::{Plane, zeros};
use std::alloc::Global;
use xs_io::Memory;

// What a split both ways gives beside the low part.
#[derive(Drop)]
struct Quarters {
    hl: Plane,
    lh: Plane,
    hh: Plane,
}

/// The bands of a plane that is split `nlx` levels across and `nly` levels down.
pub fn analyse_plane(alloc: Global, plane: &Plane, nlx: u8, nly: u8) -> Result<BandPlanes, Memory>
    requires component { IsComponent (split_of plane.now nlx nly) }
    requires small { IsSmall (2 ^ 40) plane.now }
    ensures planes { IfOk result (AreBandPlanes (split_of plane.now nlx nly)) }
    ensures bands { IfOk result (λ bands. ShowBands (split_of plane.now nlx nly) bands (bands_of_plane (split_of plane.now nlx nly) (plane_of plane.now))) }
{
    let levels = levels_of(plane, nlx, nly);
    let mut bands = BandPlanes::empty(alloc, levels.first_band(0))?;
    let mut work = plane.copied(alloc)?;
    let mut line = zeros(alloc, (levels.width + 1) / 2)?;
    for level in 0..nlx {
        split_level(
            alloc,
            &mut work,
            line.as_mut_slice(),
            &mut bands,
            levels,
            level,
        )?;
    }
    bands.put(0, low_part(alloc, &work, levels)?);
    Ok(bands)
}

fn levels_of(plane: &Plane, across: u8, down: u8) -> Levels
    requires { 0 < length plane.now }
    ensures split { split_by result ≡ split_of plane.now across down }
    ensures wide { IsWide result.width plane.now }
{
    Levels {
        width: plane.width(),
        height: plane.height(),
        across,
        down,
    }
}

// What is left of a plane after the last level, as a plane.
fn low_part(alloc: Global, work: &Plane, levels: Levels) -> Result<Plane, Memory>
    requires component { IsComponent (split_by levels) }
    requires size { HasSize levels.width levels.height work.now }
    ensures { IfOk result (λ plane. plane ≡ part_at (split_by levels) levels.across work.now) }
{
    let width = levels.columns(levels.across);
    let height = levels.rows(levels.across);
    let mut low = Plane::blank(alloc, width as u32, height as u32)?;
    copy_part(work, &mut low, width, height);
    Ok(low)
}

fn split_level(
    alloc: Global,
    work: &mut Plane,
    line: &mut [i64],
    bands: &mut BandPlanes,
    levels: Levels,
    level: u8,
) -> Result<(), Memory>
    requires component { IsComponent (split_by levels) }
    requires level { level < levels.across }
    requires size { HasSize levels.width levels.height work.old }
    requires line { length line.old ≡ low_count levels.width }
    requires small { IsSmall (2 ^ 48) (part_at (split_by levels) level work.old) }
    requires bands { length bands.old ≡ band_count (split_by levels) }
    ensures split { IfOk result (λ _. IsLevelSplit (split_by levels) level (plane_of (part_at (split_by levels) level work.old)) (part_at (split_by levels) (suc level) work.new) bands.old bands.new) }
    ensures shape { IfOk result (λ _. SameShape work.old work.new) }
{
    if level < levels.down {
        split_both(alloc, work, line, bands, levels, level)
    } else {
        split_across(alloc, work, line, bands, levels, level)
    }
}

fn split_across(
    alloc: Global,
    work: &mut Plane,
    line: &mut [i64],
    bands: &mut BandPlanes,
    levels: Levels,
    level: u8,
) -> Result<(), Memory>
    requires component { IsComponent (split_by levels) }
    requires level { level < levels.across }
    requires wide { levels.down ≤ level }
    requires size { HasSize levels.width levels.height work.old }
    requires line { length line.old ≡ low_count levels.width }
    requires small { IsSmall (2 ^ 48) (part_at (split_by levels) level work.old) }
    requires bands { length bands.old ≡ band_count (split_by levels) }
    ensures split { IfOk result (λ _. IsLevelSplit (split_by levels) level (plane_of (part_at (split_by levels) level work.old)) (part_at (split_by levels) (suc level) work.new) bands.old bands.new) }
    ensures shape { IfOk result (λ _. SameShape work.old work.new) }
{
    let width = levels.columns(level);
    let height = levels.rows(level);
    let mut high = Plane::blank(alloc, (width / 2) as u32, height as u32)?;
    split_rows(
        work,
        1,
        &mut line[..(width + 1) / 2],
        &mut high,
        width,
        height,
    );
    bands.put(levels.first_band(level + 1), high);
    Ok(())
}

fn split_both(
    alloc: Global,
    work: &mut Plane,
    line: &mut [i64],
    bands: &mut BandPlanes,
    levels: Levels,
    level: u8,
) -> Result<(), Memory>
    requires component { IsComponent (split_by levels) }
    requires level { level < levels.down }
    requires size { HasSize levels.width levels.height work.old }
    requires line { length line.old ≡ low_count levels.width }
    requires small { IsSmall (2 ^ 48) (part_at (split_by levels) level work.old) }
    requires bands { length bands.old ≡ band_count (split_by levels) }
    ensures split { IfOk result (λ _. IsLevelSplit (split_by levels) level (plane_of (part_at (split_by levels) level work.old)) (part_at (split_by levels) (suc level) work.new) bands.old bands.new) }
    ensures shape { IfOk result (λ _. SameShape work.old work.new) }
{
    let width = levels.columns(level);
    let height = levels.rows(level);
    let quarters = split_part(alloc, work, &mut line[..(width + 1) / 2], width, height)?;
    let first = levels.first_band(level + 1);
    bands.put(first, quarters.hl);
    bands.put(first + 1, quarters.lh);
    bands.put(first + 2, quarters.hh);
    Ok(())
}

// The first columns of the first rows are split both ways, columns before rows.
fn split_part(
    alloc: Global,
    work: &mut Plane,
    line: &mut [i64],
    width: usize,
    height: usize,
) -> Result<Quarters, Memory>
    requires two_columns { 2 ≤ width }
    requires two_rows { 2 ≤ height }
    requires most_columns { width ≤ 8192 }
    requires most_rows { height ≤ 8192 }
    requires room { IsRoomy width height work.old }
    requires line { length line.old ≡ low_count width }
    requires small { BelowWithin (2 ^ 48) width height (plane_of work.old) }
    ensures quarters { IfOk result (λ quarters. AreQuarters width height (plane_of work.old) (plane_of work.new) quarters.hl quarters.lh quarters.hh) }
    ensures shape { IfOk result (λ _. SameShape work.old work.new) }
{
    let upper = (height + 1) / 2;
    let mut hl = Plane::blank(alloc, (width / 2) as u32, upper as u32)?;
    let mut lh = Plane::blank(alloc, ((width + 1) / 2) as u32, (height / 2) as u32)?;
    let mut hh = Plane::blank(alloc, (width / 2) as u32, (height / 2) as u32)?;
    split_columns(work, width, height);
    split_odd_rows(work, &mut lh, &mut hh, width, height);
    split_rows(work, 2, line, &mut hl, width, upper);
    Ok(Quarters { hl, lh, hh })
}
