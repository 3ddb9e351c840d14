// An activity files the rows of a component.
ghost use Rattle.std.specs.Prelude.{◌≡◌, ◌<◌, IfOk};
ghost use Rattle.xs_layout.specs.Geometry.{components_of};
ghost use Rattle.xs_params.specs.Geometry.{slice_count};
ghost use Rattle.xs_lanes.specs.Knowing.{SameShare};
ghost use Rattle.xs_lanes.specs.Passes.{IsPassOf, lane_count, view};
ghost use Rattle.xs_enc_lanes.specs.Coded.{rows_of_job};
ghost use Rattle.xs_enc_lanes.specs.Rows.{CarriesRows, component_in, slice_of};
ghost use Rattle.xs_enc_lanes.specs.Working.{AreFiledTo, IsFiled, IsWork, StoresRows};

use crate::activity::Job;
use crate::rows::ComponentRows;
use crate::transform::{Transform, rows_for};
use std::alloc::Global;
use xs_geometry::Geometry;
use xs_io::Memory;
use xs_lanes::Pass;
use xs_picture::Component;

// Files the rows of a component in a slice. Those of a place that is taken are dropped.
fn put_rows(job: &Job<'_>, pass: &mut Pass<ComponentRows>, rows: ComponentRows)
    requires work { IsWork job.now }
    requires pass { IsPassOf job.now.lanes.now pass.old }
    requires rows { CarriesRows job.now.header.now (rows_of_job job.now) rows }
    ensures pass { IsPassOf job.now.lanes.now pass.new }
    ensures share { SameShare (view pass.old) (view pass.new) }
    ensures got { (view pass.new).got ≡ (view pass.old).got }
    ensures stored { StoresRows job.now (view pass.old) → StoresRows job.now (view pass.new) }
    ensures filed { IsFiled (view pass.new) (slice_of rows) (component_in rows) }
    ensures others { (slice component : _) → IsFiled (view pass.old) slice component → IsFiled (view pass.new) slice component }
{
    drop(job.lanes.put(pass, rows));
}

// Transforms a component, and files its rows slice by slice, each as soon as they are known. Those that are filed are given up.
pub(crate) fn file_component(
    alloc: Global,
    job: &Job<'_>,
    pass: &mut Pass<ComponentRows>,
    number: u32,
) -> Result<(), Memory>
    requires work { IsWork job.now }
    requires pass { IsPassOf job.now.lanes.now pass.old }
    requires there { number < components_of job.now.header.now.shape.format }
    ensures pass { IsPassOf job.now.lanes.now pass.new }
    ensures share { SameShare (view pass.old) (view pass.new) }
    ensures got { (view pass.new).got ≡ (view pass.old).got }
    ensures stored { StoresRows job.now (view pass.old) → StoresRows job.now (view pass.new) }
    ensures filed { IfOk result (λ _. AreFiledTo (slice_count job.now.header.now) number (view pass.new)) }
{
    let component = Component {
        picture: job.picture,
        header: job.header,
        number,
    };
    let mut transform = Transform::new(alloc, component)?;
    'slices: for slice in 0..Geometry::of(job.header).slices() {
        transform.advance(alloc, rows_for(job.header, slice))?;
        put_rows(job, pass, transform.slice(alloc, slice)?);
        transform.forget(slice);
    }
    Ok(())
}
