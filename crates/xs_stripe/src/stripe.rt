//! The picture lines of a slice.
ghost use Rattle.std.specs.Prelude.{◌≡◌, ◌+◌, ◌-◌, ◌*◌, ◌/◌, ◌^◌, ◌<◌, ◌≤◌, ℕ, List, [], ◌∷◌, ◌++◌, length, slice_index_or, IfOk, IfSome, MatchOption};
ghost use Rattle.xs_layout.specs.Geometry.{components_of};
ghost use Rattle.xs_params.specs.Accepted.{IsAccepted};
ghost use Rattle.xs_params.specs.Geometry.{component_width as width_in, slice_count};
ghost use Rattle.xs_geometry.specs.SliceLines.{AreLinesOf, ShowRows};
ghost use Rattle.xs_rate.specs.Coefficients.{Rows};
ghost use Rattle.xs_stripe.specs.Edges.{AreSmallRows, IsDownEdge, IsUpEdge, ShowsDown, ShowsUp};
ghost use Rattle.xs_stripe.specs.Lines.{AreLines, HaveLine, HoldRows};
ghost use Rattle.xs_stripe.specs.Near.{near_rows};
ghost use Rattle.xs_stripe.specs.Source.{HaveRows, ShowRowsOf};
ghost use Rattle.xs_stripe.specs.Stripe.{AreDecodedFrom, IsDecodedRow, IsStripeOf, line_of};

use crate::edges::Edge;
use crate::lines::{Lines, component_count};
use crate::near::NearRows;
use crate::sample_list::SampleList;
use std::alloc::Global;
use xs_geometry::SliceRows;
use xs_io::Memory;
use xs_layout::Format;
use xs_params::{Header, component_width};

/// The samples of all components in the picture lines of a slice, line after line, in one block of memory.
#[derive(Drop)]
pub struct Stripe {
    first: u32,
    end: u32,
    components: u32,
    rows: SampleList,
}

impl Stripe {
    ghost use Rattle.xs_stripe.specs.Stripe.{HasRow, stripe_row};

    /// A stripe of the picture lines of a slice, without samples.
    pub fn blank(alloc: Global, header: &Header, slice: u32) -> Result<Stripe, Memory>
        requires accepted { IsAccepted header.now }
        requires slice { slice < slice_count header.now }
        ensures first { IfOk result (λ stripe. stripe.first ≡ line_of header.now (slice * header.now.hsl)) }
        ensures end { IfOk result (λ stripe. stripe.end ≡ line_of header.now ((slice + 1) * header.now.hsl)) }
        ensures components { IfOk result (λ stripe. stripe.components ≡ components_of header.now.shape.format) }
        ensures none { IfOk result (λ stripe. stripe.rows ≡ []) }
    {
        let precincts = u32::from(header.hsl);
        let first = line_of(header, slice * precincts);
        let end = line_of(header, (slice + 1) * precincts);
        let components = u32::from(component_count(header));
        let lines = end - first;
        let rows = lines * components;
        let samples = lines as usize * samples_in_line(header);
        Ok(Stripe {
            first,
            end,
            components,
            rows: SampleList::new(alloc, rows as usize, samples)?,
        })
    }

    /// The first picture line, and one past the last.
    pub fn lines(&self) -> (u32, u32)
        ensures first { result.0 ≡ self.now.first }
        ensures end { result.1 ≡ self.now.end }
    {
        (self.first, self.end)
    }

    /// The samples of a component in a picture line.
    pub fn row(&self, component: u32, line: u32) -> &[u16]
        requires { HasRow self.now component line }
        ensures { result.now ≡ stripe_row self.now component line }
    {
        let number = (line - self.first) as usize * self.components as usize + component as usize;
        self.rows.row(number)
    }
}

/// The samples of the picture lines of a slice, from its own rows and the edges that its neighbours hand it: the edge that goes
/// down of the slice before, and the edge that goes up of the slice after.
pub fn synthesise_stripe(
    alloc: Global,
    header: &Header,
    slice: u32,
    above: Option<&Edge>,
    body: &SliceRows,
    below: Option<&Edge>,
) -> Result<Stripe, Memory>
    requires accepted { IsAccepted header.now }
    requires slice { slice < slice_count header.now }
    requires body { AreLinesOf header.now slice body.now }
    requires small { AreSmallRows body.now }
    requires above { MatchOption above (slice ≡ 0) (λ edge. (0 < slice) × IsDownEdge header.now (slice - 1) edge.now) }
    requires below { MatchOption below (slice + 1 ≡ slice_count header.now) (λ edge. (slice + 1 < slice_count header.now) × IsUpEdge header.now (slice + 1) edge.now) }
    ensures { IfOk result (λ stripe. (rows : Rows) → ShowRows header.now rows body.now → IfSome above.entry (λ edge. ShowsDown header.now (slice - 1) edge.now rows) → IfSome below.entry (λ edge. ShowsUp header.now (slice + 1) edge.now rows) → IsStripeOf header.now slice stripe rows) }
{
    let source = NearRows { above, body, below };
    let mut stripe = Stripe::blank(alloc, header, slice)?;
    let mut scratch = zeros(alloc, header.shape.width as usize)?;
    let mut lines = Lines::new(alloc, header)?;
    lines.begin(&source, slice);
    fill(&mut stripe, &mut lines, &source, scratch.as_mut_slice())?;
    Ok(stripe)
}

// How many samples a picture line has in all components.
fn samples_in_line(header: &Header) -> usize
    requires { IsAccepted header.now }
    ensures { result ≤ 3 * header.now.shape.width }
{
    let width = header.shape.width as usize;
    match header.shape.format {
        Format::Mono => width,
        Format::C422 => 2 * width,
        Format::C444 => 3 * width,
    }
}

fn zeros(alloc: Global, width: usize) -> Result<Vec<u16>, Memory>
    ensures { IfOk result (λ row. length row.items ≡ width) }
{
    Vec::from_elem(alloc, 0, width).map_err(|_| Memory)
}

// Makes all lines of the stripe.
fn fill(
    stripe: &mut Stripe,
    lines: &mut Lines<'_>,
    source: &NearRows<'_>,
    scratch: &mut [u16],
) -> Result<(), Memory>
    requires state { AreLines lines.old }
    requires start { (stripe.old.first ≡ lines.old.given) × (2 ^ lines.old.header.now.nly * lines.old.first ≡ lines.old.given) }
    requires end { (stripe.old.first ≤ stripe.old.end) × (stripe.old.end ≤ lines.old.header.now.shape.height) }
    requires near { (line : ℕ) → line < stripe.old.end → HaveRows lines.old.header.now lines.old.first (line / 2 ^ lines.old.header.now.nly + 1) (near_rows source.now.above source.now.body.now source.now.below) }
    requires width { length scratch.old ≡ lines.old.header.now.shape.width }
    requires none { stripe.old.rows ≡ [] }
    ensures same { (stripe.new.first ≡ stripe.old.first) × (stripe.new.end ≡ stripe.old.end) × (stripe.new.components ≡ stripe.old.components) }
    ensures all { IfOk result (λ _. length stripe.new.rows ≡ (stripe.old.end - stripe.old.first) * components_of lines.old.header.now.shape.format) }
    ensures decoded { (coefficients : Rows) → HoldRows coefficients lines.old → ShowRowsOf coefficients (near_rows source.now.above source.now.body.now source.now.below) → IfOk result (λ _. AreDecodedFrom lines.old.header.now coefficients stripe.old.first stripe.new.rows) }
{
    let end = stripe.end;
    'filling: while lines.given() < end {
        lines.step(source);
        add_line(&mut stripe.rows, lines, scratch)?;
    }
    Ok(())
}

// Adds the samples of each component in the line that was made last.
fn add_line(rows: &mut SampleList, lines: &Lines<'_>, scratch: &mut [u16]) -> Result<(), Memory>
    requires state { AreLines lines.now }
    requires line { HaveLine lines.now }
    requires width { length scratch.old ≡ lines.now.header.now.shape.width }
    ensures scratch { length scratch.new ≡ length scratch.old }
    ensures more { IfOk result (λ _. length rows.new ≡ length rows.old + components_of lines.now.header.now.shape.format) }
    ensures decoded { (coefficients : Rows) (first : ℕ) → HoldRows coefficients lines.now → first < lines.now.given → length rows.old ≡ (lines.now.given - 1 - first) * components_of lines.now.header.now.shape.format → AreDecodedFrom lines.now.header.now coefficients first rows.old → IfOk result (λ _. AreDecodedFrom lines.now.header.now coefficients first rows.new) }
{
    'components: for component in 0..u32::from(component_count(lines.header())) {
        add_row(rows, lines, component, scratch)?;
    }
    Ok(())
}

// Adds the samples of a component.
fn add_row(
    rows: &mut SampleList,
    lines: &Lines<'_>,
    component: u32,
    scratch: &mut [u16],
) -> Result<(), Memory>
    requires state { AreLines lines.now }
    requires line { HaveLine lines.now }
    requires component { component < components_of lines.now.header.now.shape.format }
    requires width { length scratch.old ≡ lines.now.header.now.shape.width }
    ensures scratch { length scratch.new ≡ length scratch.old }
    ensures added { IfOk result (λ _. (row : List ℕ) × (rows.new ≡ rows.old ++ row ∷ []) × ((coefficients : Rows) → HoldRows coefficients lines.now → IsDecodedRow lines.now.header.now coefficients component (lines.now.given - 1) row)) }
{
    let width = component_width(&lines.header().shape, component);
    let row = &mut scratch[..width as usize];
    lines.write_samples(component, row);
    rows.push(row)?;
    Ok(())
}

// The first picture line of a precinct, as far as there is one.
fn line_of(header: &Header, precinct: u32) -> u32
    requires few { header.now.nly ≤ 2 }
    requires small { precinct < 2 ^ 28 }
    ensures { result ≡ line_of header.now precinct }
{
    let line = match header.nly {
        0 => precinct,
        1 => 2 * precinct,
        _ => 4 * precinct,
    };
    line.min(header.shape.height)
}
