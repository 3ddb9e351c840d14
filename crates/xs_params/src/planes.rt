// Pictures.
ghost use Rattle.std.specs.Prelude.{◌≡◌, ℕ, ◌+◌, ◌*◌, ◌<◌, ◌≤◌, ◌^◌, if◌then◌else◌, is_ok, length, take, drop, IfOk, replicate};
ghost use Rattle.std.specs.Result.{result_err};
ghost use Rattle.xs_layout.specs.Geometry.{components_of, component_width_of};
ghost use Rattle.xs_params.specs.Picture.{RowsApart, IsShape, IsRow, IsPlace, IsPicture, AreSamples, Picture, plane_first, put_at, row_first, width_of, sample_count, sample_at, sample_size, first_deeper, samples_of, samples_of_row, with_sample, with_samples};

use crate::raw::put_raw;
use std::alloc::Global;
use std::marker::Model;
use xs_io::Memory;
use xs_layout::{Format, Shape, ceil_div};

/// A picture: for each component its rows of samples. Contracts see it in the order of the raw picture.
#[derive(Debug, Drop)]
pub struct Planes {
    shape: Shape,
    samples: Vec<u16>,
}

impl Model for Planes {
    ghost use Rattle.xs_params.specs.Picture.{Picture, IsPicture};

    ghost Value = { Picture };

    ghost view = { λ p. record { shape = p.shape; samples = p.samples.items } };

    ghost invariant = { λ p. IsPicture (record { shape = p.shape; samples = p.samples.items }) };
}

impl Planes {
    /// A picture of zeros.
    pub fn blank(alloc: Global, shape: Shape) -> Result<Planes, Memory>
        requires { IsShape shape }
        ensures shape { IfOk result (λ picture. picture.shape ≡ shape) }
        ensures zeros { IfOk result (λ picture. picture.samples ≡ replicate (sample_count shape) 0) }
    {
        let samples = zeros(alloc, count_samples(&shape))?;
        Ok(Planes { shape, samples })
    }

    pub fn shape(&self) -> &Shape
        ensures shape { result.now ≡ self.now.shape }
        ensures picture { IsPicture self.now }
    {
        &self.shape
    }

    /// The sample of a component at a place.
    pub fn get(&self, component: u32, row: u32, column: u32) -> u16
        requires { IsPlace self.now.shape component row column }
        ensures sample { result ≡ sample_at self.now component row column }
        ensures small { result < 2 ^ self.now.shape.depth }
    {
        self.samples[place_of(&self.shape, component, row, column)]
    }

    /// Replaces the sample of a component at a place.
    pub fn set(&mut self, component: u32, row: u32, column: u32, sample: u16)
        requires place { IsPlace self.old.shape component row column }
        requires small { sample < 2 ^ self.old.shape.depth }
        ensures set { self.new ≡ with_sample self.old component row column sample }
    {
        let place = place_of(&self.shape, component, row, column);
        self.samples[place] = sample;
    }

    /// A row of a component.
    pub fn row(&self, component: u32, row: u32) -> &[u16]
        requires { IsRow self.now.shape component row }
        ensures samples { result.now ≡ samples_of_row self.now component row }
        ensures width { length result.now ≡ width_of self.now.shape component }
        ensures small { AreSamples self.now.shape.depth result.now }
    {
        let start = row_start(&self.shape, component, row);
        let width = component_width(&self.shape, component) as usize;
        part(self.samples.as_slice(), start, width)
    }

    /// Replaces a row of a component.
    pub fn set_row(&mut self, component: u32, row: u32, samples: &[u16])
        requires row { IsRow self.old.shape component row }
        requires width { length samples.now ≡ width_of self.old.shape component }
        requires small { AreSamples self.old.shape.depth samples.now }
        ensures set { self.new ≡ with_samples self.old component row samples.now }
    {
        let start = row_start(&self.shape, component, row);
        put_part(self.samples.as_mut_slice(), start, samples);
    }

    /// Replaces a row of a component by the samples that raw bytes hold: one byte each at depth 8, two at depths 10 and
    /// 12, the low one first. Where a sample has more bits than the depth, the picture is as before, and the column of
    /// the first is told.
    pub fn set_raw_row(&mut self, component: u32, row: u32, bytes: &[u8]) -> Result<(), usize>
        requires row { IsRow self.old.shape component row }
        requires size { length bytes.now ≡ width_of self.old.shape component * sample_size self.old.shape.depth }
        ensures first { result_err result ≡ first_deeper self.old.shape.depth (samples_of self.old.shape.depth bytes.now) }
        ensures shape { self.new.shape ≡ self.old.shape }
        ensures set { self.new ≡ (if is_ok result then with_samples self.old component row (samples_of self.old.shape.depth bytes.now) else self.old) }
    {
        let start = row_start(&self.shape, component, row);
        put_raw(self.samples.as_mut_slice(), start, self.shape.depth, bytes)
    }
}

/// A row of a picture ends before each later one begins.
pub fn rows_apart()
    ensures { RowsApart }
{}

/// The columns of a component.
pub fn component_width(shape: &Shape, component: u32) -> u32
    ensures width { result ≡ component_width_of shape.now.format shape.now.width component }
{
    match shape.format {
        Format::C422 if component > 0 => ceil_div(shape.width, 2),
        Format::Mono | Format::C422 | Format::C444 => shape.width,
    }
}

/// So many zeros.
fn zeros(alloc: Global, count: usize) -> Result<Vec<u16>, Memory>
    ensures zeros { IfOk result (λ list. list.items ≡ replicate count 0) }
{
    vec![in alloc; 0; count].map_err(|_| Memory)
}

/// The samples of all components.
fn count_samples(shape: &Shape) -> usize
    requires { IsShape shape.now }
    ensures count { result ≡ sample_count shape.now }
{
    plane_start(shape, shape.format.components())
}

/// Where a component's samples begin, or at the number of components where all of them end.
fn plane_start(shape: &Shape, component: u32) -> usize
    requires shape { IsShape shape.now }
    requires component { component ≤ components_of shape.now.format }
    ensures first { result ≡ plane_first shape.now component }
{
    if component == 0 {
        return 0;
    }
    let luma = shape.width as usize;
    let chroma = component_width(shape, 1) as usize;
    (luma + (component as usize - 1) * chroma) * shape.height as usize
}

/// Where a row's samples begin.
fn row_start(shape: &Shape, component: u32, row: u32) -> usize
    requires shape { IsShape shape.now }
    requires row { IsRow shape.now component row }
    ensures first { result ≡ row_first shape.now component row }
    ensures end { result + width_of shape.now component ≤ sample_count shape.now }
{
    plane_start(shape, component) + row as usize * component_width(shape, component) as usize
}

/// Where the sample at a place is.
fn place_of(shape: &Shape, component: u32, row: u32, column: u32) -> usize
    requires shape { IsShape shape.now }
    requires place { IsPlace shape.now component row column }
    ensures place { result ≡ row_first shape.now component row + column }
    ensures within { result < sample_count shape.now }
{
    row_start(shape, component, row) + column as usize
}

/// So many samples from a place on.
fn part(samples: &[u16], start: usize, count: usize) -> &[u16]
    requires { start + count ≤ length samples.now }
    ensures part { result.now ≡ take count (drop start samples.now) }
    ensures count { length result.now ≡ count }
{
    &samples[start..start + count]
}

/// Writes samples from a place on.
fn put_part(samples: &mut [u16], start: usize, part: &[u16])
    requires { start + length part.now ≤ length samples.old }
    ensures { samples.new ≡ put_at samples.old start part.now }
{
    samples[start..start + part.len()].copy_from_slice(part);
}
