// The numbers of a component's lines are made, each in place of the one before it.
ghost use Rattle.std.specs.Prelude.{◌≡◌, ◌<◌, IfOk, length};
ghost use Rattle.xs_picture.specs.Analysed.{IsLine};
ghost use Rattle.xs_enc_lanes.specs.Transformed.{FitLines, IsComponentOf, numbers_of_rows};

use std::alloc::Global;
use xs_io::Memory;
use xs_params::component_width;
use xs_picture::{Component, DifferenceRows, scale_line};

// A row for scaled samples, or one for luma and for each difference: who makes one of these three makes them all.
#[derive(Drop)]
pub(crate) enum LineRows {
    Samples(Vec<i32>),
    Colours(DifferenceRows),
}

fn zeros(alloc: Global, width: usize) -> Result<Vec<i32>, Memory>
    ensures { IfOk result (λ row. length row.items ≡ width) }
{
    Vec::from_elem(alloc, 0, width).map_err(|_| Memory)
}

impl LineRows {
    // Those of a component, before the first line.
    pub(crate) fn of(alloc: Global, component: Component<'_>) -> Result<LineRows, Memory>
        requires component { IsComponentOf component }
        ensures { IfOk result (FitLines component.entry) }
    {
        let width = component_width(&component.header.shape, component.number) as usize;
        if component.header.colour {
            let rows = DifferenceRows::zeros(alloc, width)?;
            Ok(LineRows::Colours(rows))
        } else {
            let row = zeros(alloc, width)?;
            Ok(LineRows::Samples(row))
        }
    }

    // The numbers of a line, in place of those that are there.
    pub(crate) fn fill(&mut self, component: Component<'_>, line: u32)
        requires component { IsComponentOf component }
        requires fit { FitLines component self.old }
        requires line { line < component.header.now.shape.height }
        ensures fit { FitLines component.entry self.new }
        ensures line { IsLine component.entry.header.now component.entry.picture.now component.entry.number line (numbers_of_rows component.entry.number self.new) }
    {
        match self {
            LineRows::Samples(row) => scale_line(component, line, row.as_mut_slice()),
            LineRows::Colours(rows) => rows.fill(component.picture, component.header, line),
        }
    }

    // The numbers of the component with this number.
    pub(crate) fn numbers(&self, component: u32) -> &[i32]
        ensures { result.now ≡ numbers_of_rows component self.now }
    {
        match self {
            LineRows::Samples(row) => row.as_slice(),
            LineRows::Colours(rows) => match component {
                0 => rows.luma.as_slice(),
                1 => rows.first.as_slice(),
                _ => rows.second.as_slice(),
            },
        }
    }
}
