//! The lines of a picture, one after the other.
ghost use Rattle.std.specs.Prelude.{◌≡◌, ℕ, ◌+◌, ◌-◌, ◌*◌, ◌/◌, ◌^◌, ◌<◌, ◌≤◌, ◌++◌, ◌∷◌, [], true, false, length, slice_index, slice_index_or, IfOk};
ghost use Rattle.xs_layout.specs.Geometry.{components_of};
ghost use Rattle.xs_params.specs.Accepted.{IsAccepted};
ghost use Rattle.xs_params.specs.Geometry.{component_width as width_in, slice_count};
ghost use Rattle.xs_params.specs.Picture.{AreSamples};
ghost use Rattle.xs_rate.specs.Coefficients.{Rows};
ghost use Rattle.xs_signal.specs.Lines.{AllBelow, Shows, entries_of};
ghost use Rattle.xs_signal.specs.Wavelet.{Bands};
ghost use Rattle.xs_decoding.specs.Decoded.{decoded_sample};
ghost use Rattle.xs_joiner.specs.Chain.{HoldsBands, IsChain, split_by, split_of};
ghost use Rattle.xs_stripe.specs.Lines.{HasColours};
ghost use Rattle.xs_stripe.specs.Joined.{AreJoiners, HoldJoiners, IsComponentJoiner, component_split, raised_bands};
ghost use Rattle.xs_stripe.specs.Source.{HaveRows, HaveRowsAbove, ShowRowsOf};

use crate::colours::ColourRows;
use crate::raised::RaisedRows;
use crate::source::CoefficientRows;
use std::alloc::Global;
use xs_io::Memory;
use xs_joiner::{JoinShape, Joiner};
use xs_layout::Format;
use xs_params::{Header, component_width};
use xs_rows::scale_row_out;

/// The joiners of all components of a picture, and where colour is turned back the numbers of the last line.
#[derive(Drop)]
pub struct Lines<'a> {
    header: &'a Header,
    first: u32,
    given: u32,
    joiners: Vec<Joiner>,
    colours: ColourRows,
}

impl<'a> Lines<'a> {
    ghost use Rattle.xs_stripe.specs.Lines.{AreLines, HaveLine, HoldColours, HoldRows, line_numbers};

    /// Before the first line of a picture.
    pub fn new(alloc: Global, header: &'a Header) -> Result<Lines<'a>, Memory>
        requires accepted { IsAccepted header.now }
        ensures state { IfOk result AreLines }
        ensures start { IfOk result (λ lines. (lines.header.now ≡ header.now) × (lines.first ≡ 0) × (lines.given ≡ 0)) }
        ensures holds { (rows : Rows) → IfOk result (HoldRows rows) }
    {
        let joiners = new_joiners(alloc, header)?;
        let colours = new_colours(alloc, header)?;
        Ok(Lines {
            header,
            first: 0,
            given: 0,
            joiners,
            colours,
        })
    }

    /// The header of the picture.
    pub fn header(&self) -> &Header
        ensures { result.now ≡ self.now.header.now }
    {
        self.header
    }

    /// The number of the next line.
    pub fn given(&self) -> u32
        ensures { result ≡ self.now.given }
    {
        self.given
    }

    /// Begins anew at a slice, so that the next line is its first. Of the bands that are high down the last rows above it are
    /// asked for.
    pub fn begin<S: CoefficientRows>(&mut self, rows: &S, slice: u32)
        requires state { AreLines self.old }
        requires slice { slice < slice_count self.old.header.now }
        requires above { HaveRowsAbove self.old.header.now (slice * self.old.header.now.hsl) (S.rows rows.now) }
        ensures state { AreLines self.new }
        ensures header { self.new.header ≡ self.old.header }
        ensures first { self.new.first ≡ slice * self.old.header.now.hsl }
        ensures given { self.new.given ≡ 2 ^ self.old.header.now.nly * self.new.first }
        ensures holds { (coefficients : Rows) → ShowRowsOf coefficients (S.rows rows.now) → HoldRows coefficients self.new }
    {
        let first = first_precinct(self.header, slice);
        self.begin_joiners(rows, first);
        self.first = first;
        self.given = first_line(self.header, first);
    }

    // All joiners begin anew at a precinct.
    fn begin_joiners<S: CoefficientRows>(&mut self, rows: &S, first: u32)
        requires state { AreLines self.old }
        requires inside { 2 ^ self.old.header.now.nly * first ≤ self.old.header.now.shape.height }
        requires above { HaveRowsAbove self.old.header.now first (S.rows rows.now) }
        ensures header { self.new.header ≡ self.old.header }
        ensures first { self.new.first ≡ self.old.first }
        ensures given { self.new.given ≡ self.old.given }
        ensures colours { self.new.colours ≡ self.old.colours }
        ensures joiners { AreJoiners self.old.header.now first (2 ^ self.old.header.now.nly * first) self.new.joiners.items }
        ensures holds { (coefficients : Rows) → ShowRowsOf coefficients (S.rows rows.now) → HoldJoiners self.old.header.now coefficients self.new.joiners.items }
    {
        let header = self.header;
        'components: for component in 0..component_count(header) {
            let source = RaisedRows {
                rows,
                header,
                component,
            };
            begin_joiner(&mut self.joiners[component as usize], &source, first);
        }
    }

    /// Makes the next line of each component, and asks for the rows for it, each of them once.
    pub fn step<S: CoefficientRows>(&mut self, rows: &S)
        requires state { AreLines self.old }
        requires room { self.old.given < self.old.header.now.shape.height }
        requires near { HaveRows self.old.header.now self.old.first (self.old.given / 2 ^ self.old.header.now.nly + 1) (S.rows rows.now) }
        ensures state { AreLines self.new }
        ensures header { self.new.header ≡ self.old.header }
        ensures first { self.new.first ≡ self.old.first }
        ensures given { self.new.given ≡ self.old.given + 1 }
        ensures holds { (coefficients : Rows) → HoldRows coefficients self.old → ShowRowsOf coefficients (S.rows rows.now) → HoldRows coefficients self.new }
    {
        self.step_joiners(rows);
        self.given = line_after(self.given, self.header.shape.height);
        self.turn_back();
    }

    // Each joiner makes its next line.
    fn step_joiners<S: CoefficientRows>(&mut self, rows: &S)
        requires state { AreLines self.old }
        requires room { self.old.given < self.old.header.now.shape.height }
        requires near { HaveRows self.old.header.now self.old.first (self.old.given / 2 ^ self.old.header.now.nly + 1) (S.rows rows.now) }
        ensures header { self.new.header ≡ self.old.header }
        ensures first { self.new.first ≡ self.old.first }
        ensures given { self.new.given ≡ self.old.given }
        ensures colours { self.new.colours ≡ self.old.colours }
        ensures joiners { AreJoiners self.old.header.now self.old.first (self.old.given + 1) self.new.joiners.items }
        ensures holds { (coefficients : Rows) → HoldJoiners self.old.header.now coefficients self.old.joiners.items → ShowRowsOf coefficients (S.rows rows.now) → HoldJoiners self.old.header.now coefficients self.new.joiners.items }
    {
        let header = self.header;
        'components: for component in 0..component_count(header) {
            let source = RaisedRows {
                rows,
                header,
                component,
            };
            step_joiner(&mut self.joiners[component as usize], &source);
        }
    }

    // The colours of the last line, where there are any.
    fn turn_back(&mut self)
        requires state { AreLines self.old }
        requires line { HaveLine self.old }
        ensures state { AreLines self.new }
        ensures header { self.new.header ≡ self.old.header }
        ensures first { self.new.first ≡ self.old.first }
        ensures given { self.new.given ≡ self.old.given }
        ensures joiners { self.new.joiners ≡ self.old.joiners }
        ensures colours { (coefficients : Rows) → self.old.header.now.colour ≡ true → HoldJoiners self.old.header.now coefficients self.old.joiners.items → HoldColours self.old.header.now coefficients (self.old.given - 1) self.new.colours }
    {
        if self.header.colour {
            self.colours.turn_back(
                self.joiners[0].line(),
                self.joiners[1].line(),
                self.joiners[2].line(),
            );
        }
    }

    /// Writes the samples of a component in the line that was made last.
    pub fn write_samples(&self, component: u32, samples: &mut [u16])
        requires state { AreLines self.now }
        requires begun { 2 ^ self.now.header.now.nly * self.now.first < self.now.given }
        requires component { component < components_of self.now.header.now.shape.format }
        requires width { length samples.old ≡ width_in self.now.header.now component }
        ensures small { AreSamples self.now.header.now.shape.depth samples.new }
        ensures samples { (coefficients : Rows) → HoldRows coefficients self.now → (column : ℕ) → column < length samples.new → slice_index samples.new column ≡ decoded_sample self.now.header.now coefficients component (self.now.given - 1) column }
    {
        scale_row_out(
            self.numbers(component),
            self.header.shape.depth,
            self.header.bw,
            samples,
        );
    }

    // The numbers of a component in the line that was made last.
    fn numbers(&self, component: u32) -> &[i32]
        requires state { AreLines self.now }
        requires line { HaveLine self.now }
        requires component { component < components_of self.now.header.now.shape.format }
        ensures width { length result.now ≡ width_in self.now.header.now component }
        ensures small { AllBelow (2 ^ 29) (entries_of result.now) }
        ensures shows { (coefficients : Rows) → HoldRows coefficients self.now → Shows result.now (line_numbers self.now.header.now coefficients component (self.now.given - 1)) }
    {
        if self.header.colour {
            self.colours.row(component)
        } else {
            self.joiners[component as usize].line()
        }
    }
}

// The joiners of all components, before the first line.
fn new_joiners(alloc: Global, header: &Header) -> Result<Vec<Joiner>, Memory>
    requires accepted { IsAccepted header.now }
    ensures state { IfOk result (λ joiners. AreJoiners header.now 0 0 joiners.items) }
    ensures holds { (rows : Rows) → IfOk result (λ joiners. HoldJoiners header.now rows joiners.items) }
{
    let mut joiners = Vec::new(alloc);
    'components: for component in 0..u32::from(component_count(header)) {
        let joiner = new_joiner(alloc, header, component)?;
        add_joiner(&mut joiners, joiner)?;
    }
    Ok(joiners)
}

// The joiner of a component.
fn new_joiner(alloc: Global, header: &Header, component: u32) -> Result<Joiner, Memory>
    requires accepted { IsAccepted header.now }
    requires component { component < components_of header.now.shape.format }
    ensures state { IfOk result (IsComponentJoiner header.now component 0 0) }
    ensures holds { (b : Bands) → IfOk result (HoldsBands b) }
{
    let shape = join_shape(header, component);
    let joiner = Joiner::new(alloc, shape)?;
    Ok(joiner)
}

// The size of a component, and its levels.
fn join_shape(header: &Header, component: u32) -> JoinShape
    ensures { split_by result ≡ component_split header.now component }
{
    JoinShape {
        width: component_width(&header.shape, component),
        height: header.shape.height,
        across: u32::from(header.nlx),
        down: u32::from(header.nly),
    }
}

fn add_joiner(joiners: &mut Vec<Joiner>, joiner: Joiner) -> Result<(), Memory>
    ensures { IfOk result (λ _. joiners.new.items ≡ joiners.old.items ++ joiner ∷ []) }
{
    joiners.push(joiner).map_err(|_| Memory)
}

// How many components there are.
pub(crate) fn component_count(header: &Header) -> u8
    ensures { result ≡ components_of header.now.shape.format }
{
    match header.shape.format {
        Format::Mono => 1,
        Format::C422 | Format::C444 => 3,
    }
}

// A row of each colour, where colour is turned back.
fn new_colours(alloc: Global, header: &Header) -> Result<ColourRows, Memory>
    ensures { IfOk result (HasColours header.now) }
{
    let colours = ColourRows::zeros(alloc, colour_width(header) as usize)?;
    Ok(colours)
}

// How wide such a row is.
fn colour_width(header: &Header) -> u32
    ensures { header.now.colour ≡ true → result ≡ header.now.shape.width }
{
    if header.colour { header.shape.width } else { 0 }
}

// A joiner begins anew at a precinct.
fn begin_joiner<S: CoefficientRows>(joiner: &mut Joiner, source: &RaisedRows<'_, S>, first: u32)
    requires accepted { IsAccepted source.now.header.now }
    requires component { source.now.component < components_of source.now.header.now.shape.format }
    requires chain { IsChain joiner.old }
    requires split { split_of joiner.old ≡ component_split source.now.header.now source.now.component }
    requires inside { 2 ^ source.now.header.now.nly * first ≤ source.now.header.now.shape.height }
    requires above { HaveRowsAbove source.now.header.now first (S.rows source.now.rows.now) }
    ensures state { IsComponentJoiner source.now.header.now source.now.component first (2 ^ source.now.header.now.nly * first) joiner.new }
    ensures holds { (coefficients : Rows) → ShowRowsOf coefficients (S.rows source.now.rows.now) → HoldsBands (raised_bands source.now.header.now coefficients source.now.component) joiner.new }
{
    joiner.begin(source, first);
}

// A joiner makes its next line.
fn step_joiner<S: CoefficientRows>(joiner: &mut Joiner, source: &RaisedRows<'_, S>)
    requires accepted { IsAccepted source.now.header.now }
    requires component { source.now.component < components_of source.now.header.now.shape.format }
    requires chain { IsChain joiner.old }
    requires split { split_of joiner.old ≡ component_split source.now.header.now source.now.component }
    requires room { joiner.old.given < source.now.header.now.shape.height }
    requires near { HaveRows source.now.header.now joiner.old.first (joiner.old.given / 2 ^ source.now.header.now.nly + 1) (S.rows source.now.rows.now) }
    ensures state { IsComponentJoiner source.now.header.now source.now.component joiner.old.first (joiner.old.given + 1) joiner.new }
    ensures holds { (coefficients : Rows) → HoldsBands (raised_bands source.now.header.now coefficients source.now.component) joiner.old → ShowRowsOf coefficients (S.rows source.now.rows.now) → HoldsBands (raised_bands source.now.header.now coefficients source.now.component) joiner.new }
{
    joiner.step(source);
}

// The first precinct of a slice.
fn first_precinct(header: &Header, slice: u32) -> u32
    requires accepted { IsAccepted header.now }
    requires slice { slice < slice_count header.now }
    ensures first { result ≡ slice * header.now.hsl }
    ensures inside { 2 ^ header.now.nly * result ≤ header.now.shape.height }
{
    slice * u32::from(header.hsl)
}

// The first line of a precinct.
fn first_line(header: &Header, precinct: u32) -> u32
    requires accepted { IsAccepted header.now }
    requires inside { 2 ^ header.now.nly * precinct ≤ header.now.shape.height }
    ensures { result ≡ 2 ^ header.now.nly * precinct }
{
    match header.nly {
        0 => precinct,
        1 => 2 * precinct,
        _ => 4 * precinct,
    }
}

// The line below a line of a picture.
fn line_after(line: u32, height: u32) -> u32
    requires { line < height }
    ensures { result ≡ line + 1 }
{
    line + 1
}
