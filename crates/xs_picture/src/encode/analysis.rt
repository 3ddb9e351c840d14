//! The components of a picture become the rows of their bands.
ghost use Rattle.std.specs.Prelude.{◌≡◌, ℕ, ◌<◌, ◌^◌, false, length, slice_index, IfOk};
ghost use Rattle.xs_layout.specs.Geometry.{components_of};
ghost use Rattle.xs_layout.specs.Limits.{IsDepth, IsPrecision};
ghost use Rattle.xs_params.specs.Accepted.{IsAccepted};
ghost use Rattle.xs_params.specs.Geometry.{component_width as width_of_component};
ghost use Rattle.xs_params.specs.Picture.{AreSamples, Picture};
ghost use Rattle.xs_signal.specs.Lines.{AllBelow, entries_of};
ghost use Rattle.xs_signal.specs.Samples.{scale_in as scaled_in};
ghost use Rattle.xs_splitter.specs.Chain.{split_by};
ghost use Rattle.xs_stripe.specs.Joined.{component_split};
ghost use Rattle.xs_picture.specs.Analysed.{AreBandsOf, AreComponentBandsOf, IsGiven, IsLine, IsSplitUp, rows_by_type};

use crate::encode::bands::PictureBands;
use crate::encode::colours::analyse_colours;
use std::alloc::Global;
use xs_io::Memory;
use xs_params::{Header, Planes, component_width};
use xs_rows::scale_row_in;
use xs_splitter::{SplitShape, Splitter};

/// The bits of a sample, and those of the numbers that the transforms work on.
#[derive(Clone, Copy)]
pub struct Scaling {
    pub depth: u8,
    pub bw: u8,
}

/// A component of a picture, whose header this is.
#[derive(Clone, Copy)]
pub struct Component<'a> {
    pub picture: &'a Planes,
    pub header: &'a Header,
    pub number: u32,
}

/// The bands of each component of a picture, or of luma and differences where the header says so.
pub fn analyse_picture(
    alloc: Global,
    picture: &Planes,
    header: &Header,
) -> Result<PictureBands, Memory>
    requires accepted { IsAccepted header.now }
    requires shape { picture.now.shape ≡ header.now.shape }
    ensures { IfOk result (AreBandsOf header.now picture.now) }
{
    if header.colour {
        analyse_colours(alloc, picture, header)
    } else {
        analyse_components(alloc, picture, header)
    }
}

// The bands of each component, one after the other.
fn analyse_components(
    alloc: Global,
    picture: &Planes,
    header: &Header,
) -> Result<PictureBands, Memory>
    requires accepted { IsAccepted header.now }
    requires shape { picture.now.shape ≡ header.now.shape }
    requires plain { header.now.colour ≡ false }
    ensures { IfOk result (AreBandsOf header.now picture.now) }
{
    let mut bands = PictureBands::new(alloc);
    'components: for number in 0..header.shape.format.components() {
        let component = Component {
            picture,
            header,
            number,
        };
        let splitter = analyse_component(alloc, component)?;
        bands.push(splitter)?;
    }
    Ok(bands)
}

// The bands of a component.
fn analyse_component(alloc: Global, component: Component<'_>) -> Result<Splitter, Memory>
    requires accepted { IsAccepted component.header.now }
    requires shape { component.picture.now.shape ≡ component.header.now.shape }
    requires plain { component.header.now.colour ≡ false }
    requires there { component.number < components_of component.header.now.shape.format }
    ensures { IfOk result (λ splitter. AreComponentBandsOf component.entry.header.now component.entry.picture.now component.entry.number (rows_by_type splitter)) }
{
    let mut splitter = component_splitter(alloc, component.header, component.number)?;
    let width = component_width(&component.header.shape, component.number);
    let mut row = zeros(alloc, width as usize)?;
    split_rows(alloc, component, &mut splitter, row.as_mut_slice())?;
    Ok(splitter)
}

/// The splitter of a component, before the first row.
pub fn component_splitter(
    alloc: Global,
    header: &Header,
    component: u32,
) -> Result<Splitter, Memory>
    requires accepted { IsAccepted header.now }
    requires there { component < components_of header.now.shape.format }
    ensures { (picture : Picture) (from : ℕ) → IfOk result (IsGiven header.now picture component from 0) }
{
    let shape = split_shape(header, component);
    let splitter = Splitter::new(alloc, shape)?;
    Ok(splitter)
}

// The size of a component, and its levels.
fn split_shape(header: &Header, component: u32) -> SplitShape
    ensures { split_by result ≡ component_split header.now component }
{
    SplitShape {
        width: component_width(&header.shape, component),
        height: header.shape.height,
        across: u32::from(header.nlx),
        down: u32::from(header.nly),
    }
}

/// A row of zeros.
pub fn zeros(alloc: Global, width: usize) -> Result<Vec<i32>, Memory>
    ensures { IfOk result (λ row. length row.items ≡ width) }
{
    Vec::from_elem(alloc, 0, width).map_err(|_| Memory)
}

// A splitter takes all rows of its component, each of which is written over the one before it.
fn split_rows(
    alloc: Global,
    component: Component<'_>,
    splitter: &mut Splitter,
    row: &mut [i32],
) -> Result<(), Memory>
    requires accepted { IsAccepted component.header.now }
    requires shape { component.picture.now.shape ≡ component.header.now.shape }
    requires plain { component.header.now.colour ≡ false }
    requires there { component.number < components_of component.header.now.shape.format }
    requires width { length row.old ≡ width_of_component component.header.now component.number }
    requires first { IsGiven component.header.now component.picture.now component.number 0 0 splitter.old }
    ensures { IfOk result (λ _. IsSplitUp component.entry.header.now component.entry.picture.now component.entry.number 0 splitter.new) }
{
    'lines: for line in 0..component.header.shape.height {
        scale_line(component, line, row);
        splitter.push(alloc, row)?;
    }
    splitter.finish(alloc)?;
    Ok(())
}

/// The numbers of a line of a component: its scaled samples. docs/FORMAT.md, 'Samples, scaling and colour'.
pub fn scale_line(component: Component<'_>, line: u32, row: &mut [i32])
    requires accepted { IsAccepted component.header.now }
    requires shape { component.picture.now.shape ≡ component.header.now.shape }
    requires plain { component.header.now.colour ≡ false }
    requires there { component.number < components_of component.header.now.shape.format }
    requires line { line < component.header.now.shape.height }
    requires width { length row.old ≡ width_of_component component.header.now component.number }
    ensures { IsLine component.entry.header.now component.entry.picture.now component.entry.number line row.new }
{
    let scaling = Scaling {
        depth: component.header.shape.depth,
        bw: component.header.bw,
    };
    scale_row(component.picture.row(component.number, line), scaling, row);
}

/// The scaled samples of a row.
pub fn scale_row(samples: &[u16], scaling: Scaling, row: &mut [i32])
    requires depth { IsDepth scaling.depth }
    requires bw { IsPrecision scaling.bw }
    requires width { length samples.now ≡ length row.old }
    requires small { AreSamples scaling.depth samples.now }
    ensures scaled { (k : ℕ) → k < length row.new → entries_of row.new k ≡ scaled_in scaling.depth scaling.bw (slice_index samples.now k) }
    ensures small { AllBelow (2 ^ 20) (entries_of row.new) }
{
    scale_row_in(samples, scaling.depth, scaling.bw, row);
}
