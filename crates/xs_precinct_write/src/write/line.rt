// A line of a band on its way into a packet.
ghost use Rattle.std.specs.Prelude.{◌≡◌, ℕ, ◌+◌, ◌*◌, ◌^◌, ◌≤◌, ◌++◌, true, false, length, IfOk};
ghost use Rattle.xs_signal.specs.Lines.{entries_of};
ghost use Rattle.xs_spelling.specs.Sizes.{count_size, flag_size};
ghost use Rattle.xs_counts.specs.Known.{IsPredictor, counted_line};
ghost use Rattle.xs_rate.specs.Laws.{IsSmallRow};
ghost use Rattle.xs_precinct_write.specs.Outgoing.{HasNumbers, counts_cut, line_counted, own_flags, values_sent};
ghost use Rattle.xs_precinct_write.specs.Parts.{bits_in_part};

use crate::write::row::{count_row, quantise_row};
use std::alloc::Global;
use std::marker::Model;
use xs_bits::{BitWriter, Counts};
use xs_counts::{Predictor, mode_bits, write_counts, write_flags};
use xs_io::Memory;
use xs_layout::Quant;
use xs_planes::{data_bits, sign_bits, write_data, write_signs};

/// The parts of a packet to which its lines give bits.
#[derive(Clone, Copy)]
pub enum LinePart {
    Flags,
    Counts,
    Data,
    Signs,
}

/// A line of a band with some of its lowest planes cut off, and the counts of the line above it where there is one.
#[derive(Drop)]
pub struct OutgoingLine {
    mode: u8,
    t: u8,
    there: bool,
    above: Counts,
    counts: Counts,
    items: Vec<u8>,
    values: Vec<i32>,
}

impl Model for OutgoingLine {
    ghost use Rattle.std.specs.Prelude.{◌≡◌, length};
    ghost use Rattle.xs_precinct_write.specs.Outgoing.{Outgoing, IsOutgoing};

    ghost Value = { Outgoing };

    ghost view = { λ o. record { mode = o.mode; cut = o.t; there = o.there; above = o.above; counts = o.counts; values = o.values.items } };

    ghost invariant = { λ o. IsOutgoing (record { mode = o.mode; cut = o.t; there = o.there; above = o.above; counts = o.counts; values = o.values.items }) × (length o.items.items ≡ length o.counts) };
}

impl OutgoingLine {
    /// Room for a line of so many code groups.
    pub fn blank(alloc: Global, groups: u32) -> Result<OutgoingLine, Memory>
        requires few { groups ≤ 2048 }
        ensures groups { IfOk result (λ line. length line.counts ≡ groups) }
    {
        let above = Counts::blank(alloc, groups)?;
        let counts = Counts::blank(alloc, groups)?;
        let Ok(items) = Vec::from_elem(alloc, 0, groups as usize) else {
            return Err(Memory);
        };
        let Ok(values) = Vec::from_elem(alloc, 0, 4 * groups as usize) else {
            return Err(Memory);
        };
        Ok(OutgoingLine {
            mode: 0,
            t: 0,
            there: false,
            above,
            counts,
            items,
            values,
        })
    }

    pub fn mode(&self) -> u8
        ensures mode { result ≡ self.now.mode }
        ensures few { result ≤ 3 }
    {
        self.mode
    }

    pub fn set_mode(&mut self, mode: u8)
        requires { mode ≤ 3 }
        ensures { self.new ≡ record self.old { mode = mode } }
    {
        self.mode = mode;
    }

    /// Takes the counts of a row with t planes cut off. It has no line above.
    pub fn count(&mut self, t: u8, row: &[i32])
        requires cut { t ≤ 15 }
        requires small { IsSmallRow (entries_of row.now) }
        ensures { self.new ≡ record self.old { cut = t; there = false; counts = counts_cut t (entries_of row.now) (length self.old.counts) } }
    {
        count_row(row, t, self.items.as_mut_slice());
        self.counts.set(self.items.as_slice());
        self.t = t;
        self.there = false;
    }

    /// Takes the counts of the row above it, with as many planes cut off.
    pub fn count_above(&mut self, row: &[i32])
        requires small { IsSmallRow (entries_of row.now) }
        ensures { self.new ≡ record self.old { there = true; above = counts_cut self.old.cut (entries_of row.now) (length self.old.counts) } }
    {
        count_row(row, self.t, self.items.as_mut_slice());
        self.above.set(self.items.as_slice());
        self.there = true;
    }

    /// Takes the numbers of the row whose counts it has.
    pub fn quantise(&mut self, kind: Quant, row: &[i32])
        requires small { IsSmallRow (entries_of row.now) }
        requires counts { self.old.counts ≡ counts_cut self.old.cut (entries_of row.now) (length self.old.counts) }
        ensures values { self.new ≡ record self.old { values = values_sent kind self.old.cut (entries_of row.now) (4 * length self.old.counts) } }
        ensures numbers { HasNumbers self.new }
    {
        quantise_row(
            kind,
            self.t,
            self.counts.as_slice(),
            row,
            self.values.as_mut_slice(),
        );
    }

    // What its counts are predicted from.
    fn predictor(&self) -> Predictor<'_>
        ensures predictor { IsPredictor (length self.now.counts) result }
        ensures line { (mode : ℕ) → counted_line self.now.counts result mode ≡ line_counted self.now mode }
        ensures cut { result.t ≡ self.now.cut }
    {
        Predictor {
            above: if self.there { Some(&self.above) } else { None },
            above_t: self.t,
            t: self.t,
        }
    }

    /// The bits of its flags and counts together in a mode.
    pub fn mode_bits(&self, mode: u8) -> u64
        requires { mode ≤ 3 }
        ensures bits { result ≡ flag_size (line_counted self.now mode) + count_size (line_counted self.now mode) }
        ensures few { result ≤ 2 ^ 17 }
    {
        mode_bits(&self.counts, &self.predictor(), mode)
    }

    // How many flags it has.
    fn flag_count(&self) -> u64
        ensures flags { result ≡ length (own_flags self.now) }
        ensures few { result ≤ 256 }
    {
        if self.mode >= 2 {
            (self.counts.as_slice().len() as u64 + 7) / 8
        } else {
            0
        }
    }

    /// How many bits it gives to a part of a packet.
    pub fn part_size(&self, part: LinePart, apart: bool) -> u64
        requires numbers { HasNumbers self.now }
        ensures size { result ≡ length (bits_in_part part apart self.now) }
        ensures few { result ≤ 2 ^ 17 }
    {
        match part {
            LinePart::Flags => self.flag_count(),
            LinePart::Counts => self.mode_bits(self.mode) - self.flag_count(),
            LinePart::Data => data_bits(&self.counts, self.t, apart),
            LinePart::Signs if apart => sign_bits(&self.counts, self.t, self.values.as_slice()),
            LinePart::Signs => 0,
        }
    }

    /// Writes them. docs/FORMAT.md, 'Bit-plane counts' and 'Truncation, data and signs'.
    pub fn write_part(&self, part: LinePart, apart: bool, out: &mut BitWriter)
        requires numbers { HasNumbers self.now }
        requires room { length (bits_in_part part apart self.now) ≤ out.old.spare }
        ensures bits { out.new.bits ≡ out.old.bits ++ bits_in_part part apart self.now }
        ensures spare { out.old.spare ≤ out.new.spare + length (bits_in_part part apart self.now) }
    {
        match part {
            LinePart::Flags => write_flags(out, &self.counts, &self.predictor(), self.mode),
            LinePart::Counts => write_counts(out, &self.counts, &self.predictor(), self.mode),
            LinePart::Data => write_data(out, &self.counts, self.t, self.values.as_slice(), apart),
            LinePart::Signs if apart => {
                write_signs(out, &self.counts, self.t, self.values.as_slice());
            }
            LinePart::Signs => {}
        }
    }
}
