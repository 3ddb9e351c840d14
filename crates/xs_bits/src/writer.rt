// A writer of bits.
ghost use Rattle.std.specs.Prelude.{◌≡◌, ◌+◌, ◌-◌, ◌*◌, ◌/◌, ◌%◌, ◌^◌, ◌<◌, ◌≤◌, [], ◌∷◌, ◌++◌, length, replicate, OnOk, IsOk, vec_len, vec_capacity};
ghost use Rattle.xs_lists.specs.Packing.{AreBytes, missing_bits};
ghost use Rattle.xs_lists.specs.Bits.{bits_of, bits_of_bytes};

use crate::numbers::{byte_above, join, low_bits, unary};
use std::alloc::Global;
use std::marker::Model;
use xs_io::{Memory, Octets};

/// Bits that grow at their end.
#[derive(Drop)]
pub struct BitWriter {
    // the bits that make whole words
    bytes: Vec<u8>,
    // the bits after them, fewer than a word
    partial: u64,
    count: u32,
}

// Bits of a word. So many are moved to the bytes at once.
const WORD: u32 = 64;

// Ones that are put at once.
const RUN: u32 = 32;

// No writer has more bits than these.
const MOST: usize = 1 << 60;

impl Model for BitWriter {
    ghost use Rattle.std.specs.Prelude.{◌+◌, ◌-◌, ◌*◌, ◌^◌, ◌<◌, ◌≤◌, ◌++◌, min, vec_len, vec_capacity};
    ghost use Rattle.xs_lists.specs.Bits.{bits_of, bits_of_bytes};
    ghost use Rattle.xs_bits.specs.Written.{Written};

    ghost Value = { Written };

    ghost view = { λ s. record { bits = bits_of_bytes s.bytes.items ++ bits_of s.count s.partial; spare = min (8 * vec_capacity s.bytes) (2 ^ 60) - (8 * vec_len s.bytes + s.count) } };

    ghost invariant = { λ s. (s.count < 64) × (s.partial < 2 ^ s.count) × (8 * vec_len s.bytes + s.count ≤ min (8 * vec_capacity s.bytes) (2 ^ 60)) };
}

// Puts bytes at the end, where there is room.
fn append(bytes: &mut Vec<u8>, more: &[u8])
    requires room { vec_len bytes.old + length more.now ≤ vec_capacity bytes.old }
    ensures items { bytes.new.items ≡ bytes.old.items ++ more.now }
    ensures len { vec_len bytes.new ≡ vec_len bytes.old + length more.now }
    ensures capacity { vec_capacity bytes.old ≤ vec_capacity bytes.new }
{
    bytes.extend_from_slice(more).unwrap();
}

// Puts a word at the end, where there is room.
fn push_word(bytes: &mut Vec<u8>, word: u64)
    requires room { vec_len bytes.old + 8 ≤ vec_capacity bytes.old }
    ensures bits { bits_of_bytes bytes.new.items ≡ bits_of_bytes bytes.old.items ++ bits_of 64 word }
    ensures len { vec_len bytes.new ≡ vec_len bytes.old + 8 }
    ensures capacity { vec_capacity bytes.old ≤ vec_capacity bytes.new }
{
    append(bytes, &word.to_be_bytes());
}

// Puts a byte at the end, where there is room.
fn push_byte(bytes: &mut Vec<u8>, byte: u8)
    requires room { vec_len bytes.old < vec_capacity bytes.old }
    ensures bits { bits_of_bytes bytes.new.items ≡ bits_of_bytes bytes.old.items ++ bits_of 8 byte }
    ensures len { vec_len bytes.new ≡ vec_len bytes.old + 1 }
    ensures capacity { vec_capacity bytes.old ≤ vec_capacity bytes.new }
{
    bytes.push(byte).unwrap();
}

// Puts the low `count` bits of a number at the end, which make whole bytes.
fn push_bytes(bytes: &mut Vec<u8>, number: u64, count: u32)
    requires count { count < 64 }
    requires border { count % 8 ≡ 0 }
    requires room { 8 * vec_len bytes.old + count ≤ 8 * vec_capacity bytes.old }
    ensures { bits_of_bytes bytes.new.items ≡ bits_of_bytes bytes.old.items ++ bits_of count number }
{
    let mut left = count;
    'moving: while left > 0 {
        left -= 8;
        push_byte(bytes, byte_above(number, left));
    }
}

// What the type of bytes says of them.
fn known_bytes(items: &[u8])
    ensures { AreBytes items.now }
{}

impl BitWriter {
    /// No bits. It takes no memory.
    pub fn new(alloc: Global) -> BitWriter
        ensures empty { result.bits ≡ [] }
    {
        BitWriter {
            bytes: Vec::new(alloc),
            partial: 0,
            count: 0,
        }
    }

    /// How many bits were written.
    pub fn len(&self) -> usize
        ensures count { result ≡ length self.now.bits }
    {
        self.bytes.len() * 8 + self.count as usize
    }

    /// Makes room for so many more bits. It is refused only where they have no room yet: for want of memory, and where
    /// there would be more than 2^60 bits.
    pub fn reserve(&mut self, bits: usize) -> Result<(), Memory>
        ensures same { self.new.bits ≡ self.old.bits }
        ensures room { OnOk result (bits ≤ self.new.spare) }
        ensures kept { self.old.spare ≤ self.new.spare }
        ensures enough { bits ≤ self.old.spare → IsOk result }
    {
        if bits > MOST - self.len() {
            return Err(Memory);
        }
        let bytes = (self.count as usize + bits + 7) / 8;
        match self.bytes.reserve(bytes) {
            Ok(()) => Ok(()),
            Err(_) => Err(Memory),
        }
    }

    /// Writes a value as a number of `width` bits, the most significant first.
    pub fn put(&mut self, value: u32, width: u32)
        requires width { width ≤ 32 }
        requires fits { value < 2 ^ width }
        requires room { width ≤ self.old.spare }
        ensures bits { self.new.bits ≡ self.old.bits ++ bits_of width value }
        ensures spare { self.old.spare ≤ self.new.spare + width }
    {
        self.put_wide(u64::from(value), width);
    }

    /// The same of a number of up to 64 bits.
    pub fn put_wide(&mut self, value: u64, width: u32)
        requires width { width ≤ 64 }
        requires fits { value < 2 ^ width }
        requires room { width ≤ self.old.spare }
        ensures bits { self.new.bits ≡ self.old.bits ++ bits_of width value }
        ensures spare { self.old.spare ≤ self.new.spare + width }
    {
        let count = self.count + width;
        if count < WORD {
            self.partial = join(self.partial, value, width);
            self.count = count;
        } else {
            let rest = count - WORD;
            push_word(
                &mut self.bytes,
                join(self.partial, value >> rest, WORD - self.count),
            );
            self.partial = low_bits(value, rest);
            self.count = rest;
        }
    }

    /// Writes so many ones and then a zero.
    pub fn put_unary(&mut self, ones: u32)
        requires room { ones < self.old.spare }
        ensures bits { self.new.bits ≡ self.old.bits ++ (replicate ones 1 ++ 0 ∷ []) }
        ensures spare { self.old.spare ≤ self.new.spare + (ones + 1) }
    {
        let mut left = ones;
        'filling: while left >= RUN {
            self.put(u32::MAX, RUN);
            left -= RUN;
        }
        self.put(unary(left), left + 1);
    }

    /// Writes zeros up to the next byte border.
    pub fn align(&mut self)
        requires room { 7 ≤ self.old.spare }
        ensures bits { self.new.bits ≡ self.old.bits ++ replicate (missing_bits (length self.old.bits)) 0 }
        ensures border { length self.new.bits % 8 ≡ 0 }
        ensures spare { self.old.spare ≤ self.new.spare + missing_bits (length self.old.bits) }
    {
        self.put(0, (8 - self.count % 8) % 8);
    }

    /// The bytes whose bits these are.
    pub fn finish(self) -> Octets
        requires border { length self.bits % 8 ≡ 0 }
        ensures bits { bits_of_bytes result ≡ self.bits }
        ensures bytes { AreBytes result }
    {
        let mut bytes = self.bytes;
        push_bytes(&mut bytes, self.partial, self.count);
        known_bytes(&bytes);
        Octets::from(bytes)
    }
}
