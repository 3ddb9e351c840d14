//! One component's rows of one slice.
ghost use Rattle.std.specs.Prelude.{◌≡◌, ◌<◌, ◌++◌, ◌∷◌, [], Some, IfOk, OnOk, map, slice_index_or};
ghost use Rattle.xs_signal.specs.Fold.{IsFraction};
ghost use Rattle.xs_signal.specs.Lines.{entries_of};
ghost use Rattle.xs_rate.specs.Laws.{IsSmallRow};
ghost use Rattle.xs_picture.specs.Analysed.{folded_row};
ghost use Rattle.xs_enc_lanes.specs.Rows.{component_in, row_of_component};

use crate::short::narrowed;
use std::alloc::Global;
use std::default::MadeWith;
use std::marker::Model;
use xs_io::{Memory, Placed};
use xs_quant::fold_row;

// A row of coefficients, each of at most 32767 in magnitude.
#[derive(Drop)]
pub(crate) struct CoefRow {
    numbers: Vec<i16>,
}

impl Model for CoefRow {
    ghost use Rattle.std.specs.Prelude.{List, ℤ};
    ghost use Rattle.xs_signal.specs.Lines.{entries_of};
    ghost use Rattle.xs_rate.specs.Laws.{IsSmallRow};

    ghost Value = { List ℤ };

    ghost view = { λ r. r.numbers.items };

    ghost invariant = { λ r. IsSmallRow (entries_of r.numbers.items) };
}

// The row of a band, folded, in place of what is there.
fn fold_into(scratch: &mut Vec<i32>, numbers: &[i32], fraction: u8) -> Result<(), Memory>
    requires { IsFraction fraction }
    ensures { IfOk result (λ _. scratch.new.items ≡ folded_row fraction numbers.now) }
{
    scratch.resize(numbers.len(), 0).map_err(|_| Memory)?;
    fold_row(numbers, fraction, scratch.as_mut_slice());
    Ok(())
}

impl CoefRow {
    // The row of a band, folded. What was in the scratch is lost.
    pub(crate) fn folded(
        scratch: &mut Vec<i32>,
        numbers: &[i32],
        fraction: u8,
    ) -> Result<CoefRow, Memory>
        requires { IsFraction fraction }
        ensures { IfOk result (λ row. row ≡ folded_row fraction numbers.now) }
    {
        fold_into(scratch, numbers, fraction)?;
        let numbers = narrowed(*scratch.allocator(), scratch.as_slice())?;
        Ok(CoefRow { numbers })
    }

    pub(crate) fn as_slice(&self) -> &[i16]
        ensures numbers { result.now ≡ self.now }
        ensures small { IsSmallRow (entries_of result.now) }
    {
        self.numbers.as_slice()
    }
}

// The rows of a band's lines in a slice, the first line first.
#[derive(Drop)]
pub(crate) struct SliceBandRows {
    rows: Vec<CoefRow>,
}

impl Model for SliceBandRows {
    ghost use Rattle.std.specs.Prelude.{List, ℤ};

    ghost Value = { List (List ℤ) };

    ghost view = { λ b. b.rows.items };
}

impl SliceBandRows {
    pub(crate) fn new(alloc: Global) -> SliceBandRows
        ensures { result ≡ [] }
    {
        SliceBandRows {
            rows: Vec::new(alloc),
        }
    }

    pub(crate) fn push(&mut self, row: CoefRow) -> Result<(), Memory>
        ensures { OnOk result (self.new ≡ self.old ++ row ∷ []) }
    {
        self.rows.push(row).map_err(|_| Memory)
    }

    // The row of a line, counted from the slice's first. It is empty where there is none.
    fn row(&self, line: usize) -> &[i16]
        ensures row { result.now ≡ slice_index_or self.now line [] }
        ensures small { IsSmallRow (entries_of result.now) }
    {
        if line < self.rows.len() {
            self.rows[line].as_slice()
        } else {
            &[]
        }
    }
}

// The slice and the component, whether that is the last, and the rows of its bands.
#[derive(Drop)]
struct Part {
    slice: u32,
    component: u32,
    last: bool,
    bands: Vec<SliceBandRows>,
}

/// One component's rows of coefficients of one slice, band after band. In the lanes its lane is the slice and its place the
/// component, and that of the last component closes the lane. No other crate makes one.
#[derive(Drop)]
pub struct ComponentRows {
    part: Option<Box<Part>>,
}

impl Model for ComponentRows {
    ghost use Rattle.std.specs.Option.{option_map};
    ghost use Rattle.xs_enc_lanes.specs.Rows.{Carried};

    ghost Value = { Carried };

    ghost view = { λ s. option_map (λ b. record { slice = b.value.slice; component = b.value.component; last = b.value.last; bands = b.value.bands.items }) s.part };
}

impl Placed for ComponentRows {
    ghost use Rattle.xs_enc_lanes.specs.Rows.{slice_of, component_in, is_last};

    ghost lane_of = { slice_of };

    ghost slot_of = { component_in };

    ghost closes_of = { is_last };

    fn lane(&self) -> u32 {
        match &self.part {
            Some(part) => part.slice,
            None => u32::MAX,
        }
    }

    fn slot(&self) -> u32 {
        match &self.part {
            Some(part) => part.component,
            None => u32::MAX,
        }
    }

    fn closes(&self) -> bool {
        match &self.part {
            Some(part) => part.last,
            None => false,
        }
    }
}

// What a list of values holds at a place that has none.
#[derive(Clone, Copy)]
pub(crate) struct Blank;

impl MadeWith<Blank> for ComponentRows {
    fn made_with(_blank: Blank) -> ComponentRows {
        ComponentRows { part: None }
    }
}

impl ComponentRows {
    // The rows of the bands of a component in a slice.
    pub(crate) fn new(
        alloc: Global,
        place: (u32, u32),
        last: bool,
        bands: Vec<SliceBandRows>,
    ) -> Result<ComponentRows, Memory>
        ensures { IfOk result (λ v. v ≡ Some (record { slice = place.0; component = place.1; last = last; bands = bands.items })) }
    {
        let (slice, component) = place;
        let part = Part {
            slice,
            component,
            last,
            bands,
        };
        let part = Box::new(alloc, part).map_err(|_| Memory)?;
        Ok(ComponentRows { part: Some(part) })
    }

    // The component, or what is none.
    pub(crate) fn component(&self) -> u32
        ensures { result ≡ component_in self.now }
    {
        self.slot()
    }

    // The row of a line of the component's band with this number, the line counted from the slice's first. It is empty where
    // there is none.
    pub(crate) fn row(&self, number: usize, line: usize) -> &[i16]
        ensures row { result.now ≡ row_of_component self.now number line }
        ensures small { IsSmallRow (entries_of result.now) }
    {
        let Some(part) = &self.part else {
            return &[];
        };
        if number < part.bands.len() {
            part.bands[number].row(line)
        } else {
            &[]
        }
    }
}
