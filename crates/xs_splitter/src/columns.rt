//! The rows of a level that is split down, of which each waits for those below it.
ghost use Rattle.std.specs.Prelude.{◌≡◌, ℕ, ℤ, pos, ◌+◌, ◌-◌, ◌*◌, ◌/◌, ◌%◌, ◌⊎◌, ◌<◌, ◌≤◌, ◌^◌, ◌+ℤ◌, ◌-ℤ◌, length, nat_eq, IfOk, IfSome, MatchOption, if◌then◌else◌};
ghost use Rattle.std.specs.Int.{int_shr};
ghost use Rattle.xs_signal.specs.Lines.{AllBelow, Shows, entries_of};
ghost use Rattle.xs_signal.specs.Wavelet.{low_count, high_count};

use crate::row::Row;
use std::alloc::Global;
use std::mem;
use xs_io::Memory;

/// The last even row, the odd row after it, and the last high-pass row of those that were taken.
#[derive(Drop)]
pub struct Columns {
    width: usize,
    height: u32,
    bits: u32,
    taken: u32,
    even: Row,
    odd: Row,
    high: Row,
}

impl Columns {
    ghost use Rattle.xs_splitter.specs.Columns.{IsColumns, HoldsLast, HasOneMore, low_rows, high_rows};

    // Before the first row of a plane of this size, whose numbers have so many bits and a sign.
    pub(crate) fn new(
        alloc: Global,
        width: usize,
        height: u32,
        bits: u32,
    ) -> Result<Columns, Memory>
        ensures empty { IfOk result (λ c. (c.width ≡ width) × (c.height ≡ height) × (c.bits ≡ bits) × (c.taken ≡ 0)) }
        ensures state { IfOk result IsColumns }
    {
        let even = Row::zeros(alloc, width)?;
        let odd = Row::zeros(alloc, width)?;
        let high = Row::zeros(alloc, width)?;
        Ok(Columns {
            width,
            height,
            bits,
            taken: 0,
            even,
            odd,
            high,
        })
    }

    // Takes the next row. From the third on each second one gives a low-pass row; the high-pass row beside it is kept.
    pub(crate) fn push(&mut self, row: Row) -> Option<Row>
        requires state { IsColumns self.old }
        requires bits { self.old.bits ≤ 26 }
        requires room { self.old.taken < self.old.height }
        requires width { length row ≡ self.old.width }
        requires small { AllBelow (2 ^ self.old.bits) (entries_of row) }
        ensures more { HasOneMore self.old self.new }
        ensures state { IsColumns self.new }
        ensures low { MatchOption result ((self.old.taken ≡ 0) ⊎ (self.old.taken % 2 ≡ 1)) (λ low. (2 ≤ self.old.taken) × (self.old.taken % 2 ≡ 0) × (length low ≡ self.old.width) × AllBelow (2 * 2 ^ self.old.bits) (entries_of low)) }
        ensures holds { (p : ℕ → ℕ → ℤ) → HoldsLast p self.old → Shows row (p self.old.taken) → HoldsLast p self.new }
        ensures shows { (p : ℕ → ℕ → ℤ) → HoldsLast p self.old → Shows row (p self.old.taken) → IfSome result (λ low. Shows low (low_rows self.old.height p (self.old.taken / 2 - 1))) }
    {
        let before = self.taken;
        self.taken = before + 1;
        if before % 2 == 1 {
            self.odd = row;
            return None;
        }
        if before == 0 {
            self.even = row;
            return None;
        }
        Some(self.lift(row, before == 2))
    }

    // The last high-pass row.
    pub(crate) fn high(&self) -> &Row
        ensures { result.now ≡ self.now.high }
    {
        &self.high
    }

    // Counts a row that does not wait.
    pub(crate) fn count(&mut self)
        requires room { self.old.taken < self.old.height }
        ensures more { HasOneMore self.old self.new }
    {
        self.taken += 1;
    }

    // The even and the odd row that wait become low-pass and high-pass, between the high-pass row above and the even row
    // below. The first even row has the same high-pass row above and below.
    fn lift(&mut self, next: Row, first: bool) -> Row
        requires even_width { length self.old.even ≡ length next }
        requires odd_width { length self.old.odd ≡ length next }
        requires high_width { length self.old.high ≡ length next }
        requires even { AllBelow (2 ^ 26) (entries_of self.old.even) }
        requires odd { AllBelow (2 ^ 26) (entries_of self.old.odd) }
        requires high { AllBelow (2 ^ 27) (entries_of self.old.high) }
        requires next { AllBelow (2 ^ 26) (entries_of next) }
        ensures kept { (self.new.width ≡ self.old.width) × (self.new.height ≡ self.old.height) × (self.new.bits ≡ self.old.bits) × (self.new.taken ≡ self.old.taken) }
        ensures even { self.new.even ≡ next }
        ensures odd_width { length self.new.odd ≡ length next }
        ensures high_width { length self.new.high ≡ length next }
        ensures high { Shows self.new.high (λ k. entries_of self.old.odd k -ℤ int_shr (entries_of self.old.even k +ℤ entries_of next k) 1) }
        ensures low_width { length result ≡ length next }
        ensures low { Shows result (λ k. entries_of self.old.even k +ℤ int_shr ((if first then entries_of self.new.high k else entries_of self.old.high k) +ℤ entries_of self.new.high k +ℤ pos 2) 2) }
    {
        self.odd.predict(&self.even, &next);
        mem::swap(&mut self.odd, &mut self.high);
        let mut low = mem::replace(&mut self.even, next);
        if first {
            low.update(&self.high, &self.high);
        } else {
            low.update(&self.odd, &self.high);
        }
        low
    }

    // After the last row: the even row becomes low-pass in its place, and an odd row after it high-pass, since the rows
    // are mirrored at the end.
    pub(crate) fn finish(&mut self)
        requires state { IsColumns self.old }
        requires bits { self.old.bits ≤ 26 }
        requires all { self.old.taken ≡ self.old.height }
        requires two { 2 ≤ self.old.height }
        ensures kept { (self.new.width ≡ self.old.width) × (self.new.height ≡ self.old.height) × (self.new.bits ≡ self.old.bits) × (self.new.taken ≡ self.old.taken) }
        ensures low_width { length self.new.even ≡ self.old.width }
        ensures high_width { length self.new.high ≡ self.old.width }
        ensures small_low { AllBelow (2 * 2 ^ self.old.bits) (entries_of self.new.even) }
        ensures small_high { AllBelow (2 * 2 ^ self.old.bits) (entries_of self.new.high) }
        ensures low { (p : ℕ → ℕ → ℤ) → HoldsLast p self.old → Shows self.new.even (low_rows self.old.height p (low_count self.old.height - 1)) }
        ensures high { (p : ℕ → ℕ → ℤ) → HoldsLast p self.old → Shows self.new.high (high_rows self.old.height p (high_count self.old.height - 1)) }
    {
        if self.taken % 2 == 0 {
            self.lift_last(self.taken == 2);
        } else {
            self.even.update(&self.high, &self.high);
        }
    }

    // The even and the odd row that wait become low-pass and high-pass, where no row comes after them.
    fn lift_last(&mut self, first: bool)
        requires odd_width { length self.old.odd ≡ length self.old.even }
        requires high_width { length self.old.high ≡ length self.old.even }
        requires even { AllBelow (2 ^ 26) (entries_of self.old.even) }
        requires odd { AllBelow (2 ^ 26) (entries_of self.old.odd) }
        requires high { AllBelow (2 ^ 27) (entries_of self.old.high) }
        ensures kept { (self.new.width ≡ self.old.width) × (self.new.height ≡ self.old.height) × (self.new.bits ≡ self.old.bits) × (self.new.taken ≡ self.old.taken) }
        ensures high_width { length self.new.high ≡ length self.old.even }
        ensures high { Shows self.new.high (λ k. entries_of self.old.odd k -ℤ int_shr (entries_of self.old.even k +ℤ entries_of self.old.even k) 1) }
        ensures low_width { length self.new.even ≡ length self.old.even }
        ensures low { Shows self.new.even (λ k. entries_of self.old.even k +ℤ int_shr ((if first then entries_of self.new.high k else entries_of self.old.high k) +ℤ entries_of self.new.high k +ℤ pos 2) 2) }
    {
        self.odd.predict(&self.even, &self.even);
        mem::swap(&mut self.odd, &mut self.high);
        if first {
            self.even.update(&self.high, &self.high);
        } else {
            self.even.update(&self.odd, &self.high);
        }
    }

    // Whether an odd row waits beside the even one.
    pub(crate) fn has_pair(&self) -> bool
        ensures { result ≡ nat_eq (self.now.taken % 2) 0 }
    {
        self.taken % 2 == 0
    }

    // The last even row, which is low-pass at the end.
    pub(crate) fn even(&self) -> &Row
        ensures { result.now ≡ self.now.even }
    {
        &self.even
    }
}
