//! A plane is joined of its bands, level by level in one buffer.
ghost use Rattle.std.specs.Prelude.{◌≡◌, ℕ, suc, ◌<◌, ◌≤◌, ◌+◌, ◌^◌, length, slice_index_or, [], IfOk};
ghost use Rattle.xs_signal.specs.Wavelet.{Bands, low_count, high_count, low_count_at, inverse_plane};
ghost use Rattle.xs_signal.specs.Stripe.{rows_at};
ghost use Rattle.xs_wave.specs.Corners.{IsRoomy, SameShape, drawn, part_at};
ghost use Rattle.xs_wave.specs.Within.{SameWithin};
ghost use Rattle.xs_wave.specs.Planes.{plane_of, HasSize, IsSmall};
ghost use Rattle.xs_wave.specs.Bands.{IsComponent, AreBandPlanes, ShowBands, split_at};
ghost use Rattle.xs_wave.specs.Steps.{IsLevelJoined, four_joined};
ghost use Rattle.xs_wave.specs.Levels.{split_by};

use crate::across::{copy_part, join_odd_rows, join_rows};
use crate::bands::BandPlanes;
use crate::columns::join_columns;
use crate::levels::Levels;
use crate::planes::{Plane, zeros};
use std::alloc::Global;
use xs_io::Memory;

/// The plane of this size with these bands, which was split `nlx` levels across and `nly` levels down.
pub fn synthesise_plane(
    alloc: Global,
    bands: &BandPlanes,
    width: u32,
    height: u32,
    nlx: u8,
    nly: u8,
) -> Result<Plane, Memory>
    requires component { IsComponent (split_at width height nlx nly) }
    requires planes { AreBandPlanes (split_at width height nlx nly) bands.now }
    requires small { (number : ℕ) → IsSmall (2 ^ 40) (slice_index_or bands.now number []) }
    ensures size { IfOk result (λ plane. HasSize width height plane) }
    ensures plane { IfOk result (λ plane. (b : Bands) → ShowBands (split_at width height nlx nly) bands.now b → SameWithin width height (plane_of plane) (inverse_plane (split_at width height nlx nly) b)) }
{
    let levels = Levels::new(width, height, nlx, nly);
    let mut plane = Plane::blank(alloc, width, height)?;
    let mut line = zeros(alloc, (levels.width + 1) / 2)?;
    copy_part(
        bands.plane_at(0),
        &mut plane,
        levels.columns(nlx),
        levels.rows(nlx),
    );
    let mut level = nlx;
    while level > 0 {
        level -= 1;
        join_level(&mut plane, line.as_mut_slice(), bands, levels, level);
    }
    Ok(plane)
}

fn join_level(plane: &mut Plane, line: &mut [i64], bands: &BandPlanes, levels: Levels, level: u8)
    requires component { IsComponent (split_by levels) }
    requires level { level < levels.across }
    requires size { HasSize levels.width levels.height plane.old }
    requires line { length line.old ≡ low_count levels.width }
    requires small { IsSmall (2 ^ 48) (part_at (split_by levels) (suc level) plane.old) }
    requires planes { AreBandPlanes (split_by levels) bands.now }
    requires small_planes { (number : ℕ) → IsSmall (2 ^ 40) (slice_index_or bands.now number []) }
    ensures joined { IsLevelJoined (split_by levels) level (plane_of (part_at (split_by levels) (suc level) plane.old)) bands.now (part_at (split_by levels) level plane.new) }
    ensures shape { SameShape plane.old plane.new }
{
    if level < levels.down {
        join_both(plane, line, bands, levels, level);
    } else {
        join_across(plane, line, bands, levels, level);
    }
}

fn join_across(plane: &mut Plane, line: &mut [i64], bands: &BandPlanes, levels: Levels, level: u8)
    requires component { IsComponent (split_by levels) }
    requires level { level < levels.across }
    requires wide { levels.down ≤ level }
    requires size { HasSize levels.width levels.height plane.old }
    requires line { length line.old ≡ low_count levels.width }
    requires small { IsSmall (2 ^ 48) (part_at (split_by levels) (suc level) plane.old) }
    requires planes { AreBandPlanes (split_by levels) bands.now }
    requires small_planes { (number : ℕ) → IsSmall (2 ^ 40) (slice_index_or bands.now number []) }
    ensures joined { IsLevelJoined (split_by levels) level (plane_of (part_at (split_by levels) (suc level) plane.old)) bands.now (part_at (split_by levels) level plane.new) }
    ensures shape { SameShape plane.old plane.new }
{
    let width = levels.columns(level);
    let high = bands.plane_at(levels.first_band(level + 1));
    join_rows(
        plane,
        1,
        &mut line[..(width + 1) / 2],
        high,
        width,
        levels.rows(level),
    );
}

fn join_both(plane: &mut Plane, line: &mut [i64], bands: &BandPlanes, levels: Levels, level: u8)
    requires component { IsComponent (split_by levels) }
    requires level { level < levels.down }
    requires size { HasSize levels.width levels.height plane.old }
    requires line { length line.old ≡ low_count levels.width }
    requires small { IsSmall (2 ^ 48) (part_at (split_by levels) (suc level) plane.old) }
    requires planes { AreBandPlanes (split_by levels) bands.now }
    requires small_planes { (number : ℕ) → IsSmall (2 ^ 40) (slice_index_or bands.now number []) }
    ensures joined { IsLevelJoined (split_by levels) level (plane_of (part_at (split_by levels) (suc level) plane.old)) bands.now (part_at (split_by levels) level plane.new) }
    ensures shape { SameShape plane.old plane.new }
{
    let first = levels.first_band(level + 1);
    let width = levels.columns(level);
    let height = levels.rows(level);
    let line = &mut line[..(width + 1) / 2];
    join_part(
        plane,
        line,
        bands.plane_at(first),
        bands.plane_at(first + 1),
        bands.plane_at(first + 2),
        width,
        height,
    );
}

// The first columns of the first rows are joined both ways, rows before columns.
fn join_part(
    plane: &mut Plane,
    line: &mut [i64],
    hl: &Plane,
    lh: &Plane,
    hh: &Plane,
    width: usize,
    height: usize,
)
    requires two_columns { 2 ≤ width }
    requires two_rows { 2 ≤ height }
    requires most_rows { height ≤ 8192 }
    requires room { IsRoomy width height plane.old }
    requires line { length line.old ≡ low_count width }
    requires hl_size { HasSize (high_count width) (low_count height) hl.now }
    requires lh_size { HasSize (low_count width) (high_count height) lh.now }
    requires hh_size { HasSize (high_count width) (high_count height) hh.now }
    requires small { IsSmall (2 ^ 48) (drawn (low_count width) (low_count height) (plane_of plane.old)) }
    requires small_hl { IsSmall (2 ^ 48) hl.now }
    requires small_lh { IsSmall (2 ^ 48) lh.now }
    requires small_hh { IsSmall (2 ^ 48) hh.now }
    ensures joined { SameWithin width height (plane_of plane.new) (four_joined width height (plane_of plane.old) (plane_of hl.now) (plane_of lh.now) (plane_of hh.now)) }
    ensures shape { SameShape plane.old plane.new }
{
    join_rows(plane, 2, line, hl, width, (height + 1) / 2);
    join_odd_rows(lh, hh, plane, width, height);
    join_columns(plane, width, height);
}
