// What the reader of a slice keeps of a band, and how it reads the parts of the band's next line.
ghost use Rattle.std.specs.Prelude.{◌≡◌, ℕ, ◌*◌, ◌<◌, ◌≤◌, [], true, false, None, Some, Ok, Err, length, drop, IfOk, IfErr, OnOk, OnErr};
ghost use Rattle.xs_bits.specs.Reading.{left};
ghost use Rattle.xs_spelling.specs.Counts.{Line};
ghost use Rattle.xs_spelling.specs.Sizes.{data_size, numbered, signs_size};
ghost use Rattle.xs_spelling.specs.Reading.{bit_at, read_line_counts};
ghost use Rattle.xs_planes.specs.Numbers.{numbers_in, signed_in};
ghost use Rattle.xs_precinct.specs.Bands.{Band, Follows, IsBand, IsBegun, HoldsNumbers, Knows, flags_of, last_of, dequantised_row};

use crate::read::counts::{CountForm, LineForm, coded_mode, predictor_of, read_flags, read_line};
use crate::read::rows::dequantise_row;
use std::alloc::Global;
use std::marker::Model;
use xs_bits::{BitReader, Counts, Ended};
use xs_counts::Flags;
use xs_faults::CountFault;
use xs_io::Memory;
use xs_layout::Quant;
use xs_planes::{read_data, read_signs};

/// The line of a band that was read last in the slice, the settings of the precinct in hand, and room for a line. The counts of
/// a line take the place of those above it as soon as they are read.
#[derive(Drop)]
pub struct BandState {
    there: bool,
    above_t: u8,
    counts: Counts,
    mode: u8,
    t: u8,
    flags: Flags,
    line: Vec<u8>,
    values: Vec<i32>,
}

impl Model for BandState {
    ghost use Rattle.std.specs.Prelude.{◌≡◌, ◌≤◌, length};
    ghost use Rattle.xs_precinct.specs.Bands.{Band, HasRoomFor};

    ghost Value = { Band };

    ghost view = { λ b. record { there = b.there; above_cut = b.above_t; counts = b.counts; mode = b.mode; cut = b.t; values = b.values.items } };

    ghost invariant = { λ b. (b.above_t ≤ 15) × (b.t ≤ 15) × (b.mode ≤ 3) × HasRoomFor (length b.counts) b.flags b.line.items b.values.items };
}

impl BandState {
    /// No line yet, with room for one of so many code groups.
    pub fn blank(alloc: Global, groups: u32) -> Result<BandState, Memory>
        requires few { groups ≤ 2048 }
        ensures none { IfOk result (λ band. last_of band ≡ None) }
        ensures groups { IfOk result (λ band. length band.counts ≡ groups) }
    {
        let counts = Counts::blank(alloc, groups)?;
        let flags = Flags::clear(alloc, groups)?;
        let Ok(line) = Vec::from_elem(alloc, 0, groups as usize) else {
            return Err(Memory);
        };
        let Ok(values) = Vec::from_elem(alloc, 0, 4 * groups as usize) else {
            return Err(Memory);
        };
        Ok(BandState {
            there: false,
            above_t: 0,
            counts,
            mode: 0,
            t: 0,
            flags,
            line,
            values,
        })
    }

    /// Begins a precinct, whose lines of the band have this mode and this truncation. Room is taken before the first line.
    pub fn begin(&mut self, alloc: Global, groups: u32, mode: u8, t: u8) -> Result<(), Memory>
        requires few { groups ≤ 2048 }
        requires mode { mode ≤ 3 }
        requires cut { t ≤ 15 }
        requires room { self.old.there ≡ true → length self.old.counts ≡ groups }
        ensures begun { OnOk result (IsBegun self.old self.new groups mode t) }
    {
        if self.counts.as_slice().len() != groups as usize {
            *self = BandState::blank(alloc, groups)?;
        }
        self.mode = mode;
        self.t = t;
        Ok(())
    }

    /// How many flags the next line has.
    pub fn flag_count(&self) -> usize
        ensures count { result ≡ flags_of self.now }
        ensures few { result ≤ 256 }
        ensures band { IsBand self.now }
    {
        let groups = self.counts.as_slice().len();
        if self.mode >= 2 { (groups + 7) / 8 } else { 0 }
    }

    /// Reads the flags and the counts of the next line. Raw counts have no flags. docs/FORMAT.md, 'Bit-plane counts'.
    pub fn read_counts(
        &mut self,
        form: CountForm,
        flags: &mut BitReader,
        input: &mut BitReader,
    ) -> Result<(), CountFault>
        requires run_mode { form.run_mode ≤ 1 }
        requires raw { form.raw ≡ true → left flags.old ≡ [] }
        requires there { form.raw ≡ false → flags_of self.old ≤ length (left flags.old) }
        ensures read { OnOk result ((line : Line) → Knows self.old line → read_line_counts form.raw form.run_mode line (bit_at (left flags.old)) (left input.old) ≡ Ok (self.new.counts, left input.new)) }
        ensures refused { IfErr result (λ fault. (line : Line) → Knows self.old line → read_line_counts form.raw form.run_mode line (bit_at (left flags.old)) (left input.old) ≡ Err fault) }
        ensures flags { OnOk result (left flags.new ≡ drop (flags_of self.old) (left flags.old)) }
        ensures follows { OnOk result (Follows self.old self.new) }
    {
        let mode = coded_mode(form, self.mode);
        read_flags(mode, &mut self.flags, flags);
        let line = LineForm {
            form,
            mode,
            predictor: predictor_of(self.there, &self.counts, self.above_t, self.t),
            flags: &self.flags,
        };
        read_line(&line, input, self.line.as_mut_slice())?;
        self.counts.set(self.line.as_slice());
        self.there = true;
        self.above_t = self.t;
        Ok(())
    }

    /// Reads the numbers of a line whose counts were read; their magnitudes, where the signs stand apart. docs/FORMAT.md,
    /// 'Truncation, data and signs'.
    pub fn read_data(&mut self, apart: bool, input: &mut BitReader) -> Result<(), Ended>
        ensures values { OnOk result (self.new ≡ record self.old { values = numbers_in apart self.old.cut self.old.counts (left input.old) }) }
        ensures filled { OnOk result (HoldsNumbers apart self.new) }
        ensures enough { OnOk result (data_size apart (numbered self.old.cut self.old.counts []) ≤ length (left input.old)) }
        ensures left { OnOk result (left input.new ≡ drop (data_size apart (numbered self.old.cut self.old.counts [])) (left input.old)) }
        ensures ended { OnErr result (length (left input.old) < data_size apart (numbered self.old.cut self.old.counts [])) }
    {
        read_data(
            input,
            &self.counts,
            self.t,
            apart,
            self.values.as_mut_slice(),
        )
    }

    /// Reads the signs of a line whose magnitudes were read. docs/FORMAT.md, 'Truncation, data and signs'.
    pub fn read_signs(&mut self, input: &mut BitReader) -> Result<(), Ended>
        requires filled { HoldsNumbers true self.old }
        ensures values { OnOk result (self.new ≡ record self.old { values = signed_in self.old.cut self.old.counts self.old.values (left input.old) }) }
        ensures filled { OnOk result (HoldsNumbers false self.new) }
        ensures enough { OnOk result (signs_size (numbered self.old.cut self.old.counts self.old.values) ≤ length (left input.old)) }
        ensures left { OnOk result (left input.new ≡ drop (signs_size (numbered self.old.cut self.old.counts self.old.values)) (left input.old)) }
        ensures ended { OnErr result (length (left input.old) < signs_size (numbered self.old.cut self.old.counts self.old.values)) }
    {
        read_signs(input, &self.counts, self.t, self.values.as_mut_slice())
    }

    /// Puts the coefficients of a line that was read into a row, which may be shorter than the line.
    pub fn put_row(&self, kind: Quant, row: &mut [i32])
        requires filled { HoldsNumbers false self.now }
        requires short { length row.old ≤ length self.now.values }
        ensures row { row.new ≡ dequantised_row kind (numbered self.now.cut self.now.counts self.now.values) (length row.old) }
    {
        dequantise_row(kind, &self.counts, self.t, self.values.as_slice(), row);
    }
}
