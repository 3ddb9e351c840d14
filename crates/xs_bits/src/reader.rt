// A reader of bits.
ghost use Rattle.std.specs.Prelude.{◌≡◌, ◌+◌, ◌-◌, ◌*◌, ◌/◌, ◌^◌, ◌<◌, ◌≤◌, [], ◌∷◌, ◌++◌, length, take, drop, replicate, nat_le, IfOk, OnOk, OnErr, ℕ};
ghost use Rattle.xs_bits.specs.Reading.{left};
ghost use Rattle.xs_lists.specs.Bits.{bits_of, bits_of_bytes};
ghost use Rattle.xs_lists.specs.Packing.{missing_bits};

use crate::numbers::leading_run;
use crate::window::{AROUND, WINDOW, ones_at, window_at};
use std::marker::Model;

/// The bits ended before what was to be read.
#[derive(Clone, Copy, Debug, PartialEq, Eq)]
pub struct Ended;

/// Bits of bytes that are read from the front.
#[derive(Drop)]
pub struct BitReader<'a> {
    bytes: &'a [u8],
    place: usize,
}

impl<'a> Model for BitReader<'a> {
    ghost use Rattle.std.specs.Prelude.{◌*◌, ◌^◌, ◌<◌, ◌≤◌, length};
    ghost use Rattle.xs_lists.specs.Bits.{bits_of_bytes};
    ghost use Rattle.xs_bits.specs.Reading.{BitReading};

    ghost Value = { BitReading };

    ghost view = { λ s. record { bits = bits_of_bytes s.bytes.now; place = s.place } };

    ghost invariant = { λ s. (length s.bytes.now < 2 ^ 28) × (s.place ≤ 8 * length s.bytes.now) };
}

// How many bits of so many bytes are left from a place on. Only near the end is it asked.
#[cold]
#[inline(never)]
fn bits_left(bytes: usize, place: usize) -> usize
    requires few { bytes < 2 ^ 28 }
    requires there { place ≤ 8 * bytes }
    ensures { result ≡ 8 * bytes - place }
{
    bytes * 8 - place
}

impl<'a> BitReader<'a> {
    /// A reader of all the bits of some bytes.
    pub fn new(bytes: &'a [u8]) -> BitReader<'a>
        requires few { length bytes.now < 2 ^ 28 }
        ensures bits { result.bits ≡ bits_of_bytes bytes.now }
        ensures start { result.place ≡ 0 }
    {
        BitReader { bytes, place: 0 }
    }

    /// How many bits were read.
    pub fn place(&self) -> usize
        ensures place { result ≡ self.now.place }
        ensures within { self.now.place ≤ length self.now.bits }
    {
        self.place
    }

    // How many bits are left.
    fn remaining(&self) -> usize
        ensures { result ≡ length (left self.now) }
    {
        bits_left(self.bytes.len(), self.place)
    }

    // Whether so many bits are left. Far from the end one test tells it.
    fn has(&self, width: u32) -> bool
        requires { width ≤ 57 }
        ensures { result ≡ nat_le width (length (left self.now)) }
    {
        self.bytes.len() - self.place / 8 >= AROUND || self.remaining() >= width as usize
    }

    /// The next 57 bits as a number, with zeros past the end.
    pub fn peek(&self) -> u64
        ensures bits { bits_of 57 result ≡ take 57 (left self.now ++ replicate 57 0) }
        ensures fits { result < 2 ^ 57 }
    {
        window_at(self.bytes, self.place)
    }

    /// Reads a number of `width` bits, the most significant first.
    pub fn get(&mut self, width: u32) -> Result<u32, Ended>
        requires width { width ≤ 32 }
        ensures value { IfOk result (λ value. left self.old ≡ bits_of width value ++ left self.new) }
        ensures fits { IfOk result (λ value. value < 2 ^ width) }
        ensures moved { OnOk result (self.new.place ≡ self.old.place + width) }
        ensures ended { OnErr result (length (left self.old) < width) }
        ensures stays { OnErr result (self.new ≡ self.old) }
        ensures same { self.new.bits ≡ self.old.bits }
    {
        Ok(self.get_wide(width)? as u32)
    }

    /// The same of a number of up to 57 bits.
    pub fn get_wide(&mut self, width: u32) -> Result<u64, Ended>
        requires width { width ≤ 57 }
        ensures value { IfOk result (λ value. left self.old ≡ bits_of width value ++ left self.new) }
        ensures fits { IfOk result (λ value. value < 2 ^ width) }
        ensures moved { OnOk result (self.new.place ≡ self.old.place + width) }
        ensures ended { OnErr result (length (left self.old) < width) }
        ensures stays { OnErr result (self.new ≡ self.old) }
        ensures same { self.new.bits ≡ self.old.bits }
    {
        if !self.has(width) {
            return Err(Ended);
        }
        let window = self.peek();
        self.place += width as usize;
        Ok(window >> (WINDOW - width))
    }

    /// Reads ones up to a zero, and the zero. The answer is the number of the ones.
    #[inline(always)]
    pub fn ones(&mut self) -> Result<u32, Ended>
        ensures value { IfOk result (λ ones. left self.old ≡ replicate ones 1 ++ 0 ∷ left self.new) }
        ensures moved { IfOk result (λ ones. self.new.place ≡ self.old.place + ones + 1) }
        ensures few { IfOk result (λ ones. ones < 2 ^ 31) }
        ensures ended { OnErr result (left self.old ≡ replicate (length (left self.old)) 1) }
        ensures stays { OnErr result (self.new ≡ self.old) }
        ensures same { self.new.bits ≡ self.old.bits }
    {
        let run = leading_run(self.peek());
        if run < WINDOW && self.has(run + 1) {
            self.place += run as usize + 1;
            return Ok(run);
        }
        let count = ones_at(self.bytes, self.place);
        if count == self.remaining() {
            return Err(Ended);
        }
        self.place += count + 1;
        Ok(count as u32)
    }

    /// Steps to the next byte border, over bits of any value.
    pub fn align(&mut self)
        ensures place { self.new.place ≡ self.old.place + missing_bits self.old.place }
        ensures same { self.new.bits ≡ self.old.bits }
    {
        self.place = (self.place + 7) / 8 * 8;
    }

    /// Goes back to a place that the reader had.
    pub fn back(&mut self, place: usize)
        requires earlier { place ≤ self.old.place }
        ensures place { self.new.place ≡ place }
        ensures same { self.new.bits ≡ self.old.bits }
    {
        self.place = place;
    }
}
