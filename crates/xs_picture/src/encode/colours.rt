//! Red, green and blue become luma and colour differences, which are split together, so that each sample is scaled once.
ghost use Rattle.std.specs.Prelude.{◌≡◌, ℕ, ◌<◌, ◌^◌, ◌∷◌, [], true, length, slice_index, IfOk};
ghost use Rattle.xs_layout.specs.Limits.{IsDepth, IsPrecision};
ghost use Rattle.xs_params.specs.Accepted.{IsAccepted};
ghost use Rattle.xs_params.specs.Picture.{AreSamples};
ghost use Rattle.xs_signal.specs.Lines.{AllBelow, entries_of};
ghost use Rattle.xs_picture.specs.Analysed.{AreBandsOf, IsLine, rct_entry};

use crate::encode::analysis::{Scaling, component_splitter, scale_row, zeros};
use crate::encode::bands::PictureBands;
use std::alloc::Global;
use xs_colour::rct_rows;
use xs_io::Memory;
use xs_params::{Header, Planes};
use xs_splitter::Splitter;

/// A row of samples of each colour, and how they are scaled.
#[derive(Clone, Copy)]
struct ColourSamples<'a> {
    red: &'a [u16],
    green: &'a [u16],
    blue: &'a [u16],
    scaling: Scaling,
}

/// A row of luma and of both differences.
#[derive(Drop)]
pub struct DifferenceRows {
    pub luma: Vec<i32>,
    pub first: Vec<i32>,
    pub second: Vec<i32>,
}

/// The bands of luma and of both colour differences of a picture.
pub fn analyse_colours(
    alloc: Global,
    picture: &Planes,
    header: &Header,
) -> Result<PictureBands, Memory>
    requires accepted { IsAccepted header.now }
    requires shape { picture.now.shape ≡ header.now.shape }
    requires colour { header.now.colour ≡ true }
    ensures { IfOk result (AreBandsOf header.now picture.now) }
{
    let mut luma = component_splitter(alloc, header, 0)?;
    let mut first = component_splitter(alloc, header, 1)?;
    let mut second = component_splitter(alloc, header, 2)?;
    let mut rows = DifferenceRows::zeros(alloc, header.shape.width as usize)?;
    'lines: for line in 0..header.shape.height {
        rows.fill(picture, header, line);
        luma.push(alloc, rows.luma.as_slice())?;
        first.push(alloc, rows.first.as_slice())?;
        second.push(alloc, rows.second.as_slice())?;
    }
    luma.finish(alloc)?;
    first.finish(alloc)?;
    second.finish(alloc)?;
    let bands = bands_of_three(alloc, luma, first, second)?;
    Ok(bands)
}

// The bands of three components.
fn bands_of_three(
    alloc: Global,
    luma: Splitter,
    first: Splitter,
    second: Splitter,
) -> Result<PictureBands, Memory>
    ensures { IfOk result (λ bands. bands ≡ luma ∷ first ∷ second ∷ []) }
{
    let mut bands = PictureBands::new(alloc);
    bands.push(luma)?;
    bands.push(first)?;
    bands.push(second)?;
    Ok(bands)
}

impl DifferenceRows {
    /// Rows of zeros.
    pub fn zeros(alloc: Global, width: usize) -> Result<DifferenceRows, Memory>
        ensures luma { IfOk result (λ rows. length rows.luma.items ≡ width) }
        ensures first { IfOk result (λ rows. length rows.first.items ≡ width) }
        ensures second { IfOk result (λ rows. length rows.second.items ≡ width) }
    {
        let luma = zeros(alloc, width)?;
        let first = zeros(alloc, width)?;
        let second = zeros(alloc, width)?;
        Ok(DifferenceRows {
            luma,
            first,
            second,
        })
    }

    /// The numbers of a line, in place of those that are there: docs/FORMAT.md, 'Samples, scaling and colour'.
    pub fn fill(&mut self, picture: &Planes, header: &Header, line: u32)
        requires accepted { IsAccepted header.now }
        requires shape { picture.now.shape ≡ header.now.shape }
        requires colour { header.now.colour ≡ true }
        requires line { line < header.now.shape.height }
        requires luma { length self.old.luma.items ≡ header.now.shape.width }
        requires first { length self.old.first.items ≡ header.now.shape.width }
        requires second { length self.old.second.items ≡ header.now.shape.width }
        ensures luma { IsLine header.now picture.now 0 line self.new.luma.items }
        ensures first { IsLine header.now picture.now 1 line self.new.first.items }
        ensures second { IsLine header.now picture.now 2 line self.new.second.items }
    {
        let samples = ColourSamples {
            red: picture.row(0, line),
            green: picture.row(1, line),
            blue: picture.row(2, line),
            scaling: Scaling {
                depth: header.shape.depth,
                bw: header.bw,
            },
        };
        rct_row(
            samples,
            self.luma.as_mut_slice(),
            self.first.as_mut_slice(),
            self.second.as_mut_slice(),
        );
    }
}

// Luma and both differences of the scaled samples of a row.
fn rct_row(samples: ColourSamples<'_>, luma: &mut [i32], first: &mut [i32], second: &mut [i32])
    requires depth { IsDepth samples.scaling.depth }
    requires bw { IsPrecision samples.scaling.bw }
    requires red { length samples.red.now ≡ length luma.old }
    requires green { length samples.green.now ≡ length luma.old }
    requires blue { length samples.blue.now ≡ length luma.old }
    requires first { length first.old ≡ length luma.old }
    requires second { length second.old ≡ length luma.old }
    requires small_red { AreSamples samples.scaling.depth samples.red.now }
    requires small_green { AreSamples samples.scaling.depth samples.green.now }
    requires small_blue { AreSamples samples.scaling.depth samples.blue.now }
    ensures luma { (k : ℕ) → k < length luma.new → entries_of luma.new k ≡ rct_entry samples.entry.scaling.depth samples.entry.scaling.bw 0 (slice_index samples.entry.red.now k) (slice_index samples.entry.green.now k) (slice_index samples.entry.blue.now k) }
    ensures first { (k : ℕ) → k < length first.new → entries_of first.new k ≡ rct_entry samples.entry.scaling.depth samples.entry.scaling.bw 1 (slice_index samples.entry.red.now k) (slice_index samples.entry.green.now k) (slice_index samples.entry.blue.now k) }
    ensures second { (k : ℕ) → k < length second.new → entries_of second.new k ≡ rct_entry samples.entry.scaling.depth samples.entry.scaling.bw 2 (slice_index samples.entry.red.now k) (slice_index samples.entry.green.now k) (slice_index samples.entry.blue.now k) }
    ensures small_luma { AllBelow (2 ^ 20) (entries_of luma.new) }
    ensures small_first { AllBelow (2 ^ 20) (entries_of first.new) }
    ensures small_second { AllBelow (2 ^ 20) (entries_of second.new) }
{
    scale_row(samples.red, samples.scaling, luma);
    scale_row(samples.green, samples.scaling, first);
    scale_row(samples.blue, samples.scaling, second);
    rct_rows(luma, first, second);
}
