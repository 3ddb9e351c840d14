// A picture made of a number: 'Trial'.
ghost use Rattle.std.specs.Prelude.{◌≡◌, ◌+◌, ◌*◌, ◌^◌, ◌<◌, ◌≤◌, IfOk, length};
ghost use Rattle.xs_layout.specs.Geometry.{components_of};
ghost use Rattle.xs_layout.specs.Limits.{IsDepth};
ghost use Rattle.xs_params.specs.Picture.{IsPicture, IsPlace, IsRow, IsShape, plane_first, row_first, width_of};
ghost use Rattle.xs_trial.specs.Generator.{plane_places, row_places, sample_of, samples_at, state_after, state_past, trial_picture};
ghost use Rattle.xs_trial.specs.Steps.{with_drawn};

use crate::generator::next_state;
use std::alloc::Global;
use xs_io::Memory;
use xs_params::{Planes, Shape, component_width};

/// The picture of a seed, and the generator's state after it: a slope with noise of four bits.
pub fn trial_picture(alloc: Global, shape: &Shape, seed: u32) -> Result<(Planes, u64), Memory>
    requires { IsShape shape.now }
    ensures picture { IfOk result (λ made. made.0 ≡ trial_picture shape.now seed) }
    ensures state { IfOk result (λ made. made.1 ≡ state_after shape.now seed) }
{
    let mut planes = Planes::blank(alloc, *shape)?;
    let mut state = u64::from(seed);
    'components: for component in 0..shape.format.components() {
        state = draw_plane(&mut planes, component, state);
    }
    Ok((planes, state))
}

/// Draws a component, and answers the state after it.
fn draw_plane(planes: &mut Planes, component: u32, start: u64) -> u64
    requires { component < components_of planes.old.shape.format }
    ensures drawn { planes.new ≡ with_drawn planes.old (plane_first planes.old.shape component) (plane_places planes.old.shape component) start }
    ensures state { result ≡ state_past (plane_places planes.old.shape component) start }
{
    let height = planes.shape().height;
    let mut state = start;
    'rows: for row in 0..height {
        state = draw_row(planes, component, row, state);
    }
    state
}

/// Draws a row of a component, and answers the state after it.
fn draw_row(planes: &mut Planes, component: u32, row: u32, start: u64) -> u64
    requires { IsRow planes.old.shape component row }
    ensures drawn { planes.new ≡ with_drawn planes.old (row_first planes.old.shape component row) (row_places (width_of planes.old.shape component) row) start }
    ensures state { result ≡ state_past (row_places (width_of planes.old.shape component) row) start }
{
    let shape = *planes.shape();
    let mut state = start;
    'columns: for column in 0..component_width(&shape, component) {
        known_picture(planes);
        state = next_state(state);
        let sample = sample_of(shape.depth, row, column, state);
        planes.set(component, row, column, sample);
    }
    state
}

// What is true of each picture.
fn known_picture(planes: &Planes)
    ensures { IsPicture planes.now }
{
    let _shape = planes.shape();
}

/// A sample: a slope, and the state's four highest bits.
fn sample_of(depth: u8, row: u32, column: u32, state: u64) -> u16
    requires depth { IsDepth depth }
    requires row { row < 2 ^ 16 }
    requires column { column < 2 ^ 16 }
    ensures sample { result ≡ sample_of depth (row, column) state }
    ensures small { result < 2 ^ depth }
{
    let slope = (column + row) % 256;
    let noise = (state >> 60) as u32;
    ((slope + noise) % range_of(depth)) as u16
}

/// How many values a sample has.
fn range_of(depth: u8) -> u32
    requires { IsDepth depth }
    ensures range { result ≡ 2 ^ depth }
    ensures some { 0 < result }
    ensures small { result < 2 ^ 16 }
{
    1 << depth
}
