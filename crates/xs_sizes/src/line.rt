//! The sizes of a line at each truncation.
ghost use Rattle.std.specs.Prelude.{◌≡◌, ℕ, ◌<◌, ◌≤◌, ◌^◌, true, length, map, if◌then◌else◌, slice_index_or};
ghost use Rattle.xs_lists.specs.Spelling.{upto};
ghost use Rattle.xs_signal.specs.Lines.{entries_of};
ghost use Rattle.xs_rate.specs.Content.{planes_of};
ghost use Rattle.xs_rate.specs.Laws.{IsSmallRow};
ghost use Rattle.xs_sizes.specs.Lengths.{AreLengths};
ghost use Rattle.xs_sizes.specs.Cut.{signs_of};
ghost use Rattle.xs_sizes.specs.LineSizes.{AreLineSizes, ArePlanes, AreRegular, AreSignSizes, cut_sizes_at, next_of};

use crate::lengths::{CountSizes, count_sizes};
use crate::signs::count_signs;
use xs_layout::Quant;

/// The planes of a line's code groups, and those of the line above.
#[derive(Clone, Copy)]
pub struct LinePlanes<'a> {
    pub planes: &'a [u8],
    pub above: &'a [u8],
}

/// What a line has at each truncation: the bits of its counts predicted from nothing and from the line above, and the signs for
/// each quantiser.
#[derive(Clone, Copy)]
pub struct LineSizes {
    pub groups: u32,
    pub plain: CountSizes,
    pub predicted: CountSizes,
    pub dead_zone: [u32; 16],
    pub uniform: [u32; 16],
}

/// What a row has whose code groups have these planes, under those planes.
pub fn line_sizes(table: &[[u8; 16]], planes: &LinePlanes, row: &[i32], signs: bool) -> LineSizes
    requires table { AreLengths table.now }
    requires planes { ArePlanes planes.now }
    requires small { IsSmallRow (entries_of row.now) }
    requires row { planes.now.planes.now ≡ map (planes_of (entries_of row.now)) (upto (length planes.now.planes.now)) }
    ensures { AreLineSizes planes.now.above.now planes.now.planes.now (entries_of row.now) signs result }
{
    let counts = count_sizes(table, planes.above, planes.planes);
    LineSizes {
        groups: planes.planes.len() as u32,
        plain: counts.plain,
        predicted: counts.predicted,
        dead_zone: sign_sizes(row, planes.planes, Quant::DeadZone, signs),
        uniform: sign_sizes(row, planes.planes, Quant::Uniform, signs),
    }
}

// The signs of a row at each truncation, where they are wanted.
fn sign_sizes(row: &[i32], planes: &[u8], kind: Quant, wanted: bool) -> [u32; 16]
    requires small { IsSmallRow (entries_of row.now) }
    requires few { length planes.now ≤ 2048 }
    requires planes { planes.now ≡ map (planes_of (entries_of row.now)) (upto (length planes.now)) }
    ensures { wanted ≡ true → AreSignSizes kind (entries_of row.now) (length planes.now) result }
{
    if wanted {
        count_signs(row, planes, kind)
    } else {
        [0; 16]
    }
}

/// The bits of the counts of a line in a mode, at each truncation. docs/FORMAT.md, 'Bit-plane counts'.
pub fn counts_of(line: &LineSizes, mode: u8) -> [u16; 16]
    requires { mode < 4 }
    ensures { (t : ℕ) → slice_index_or result t 0 ≡ slice_index_or (cut_sizes_at line.now t).counts mode 0 }
{
    match mode {
        0 => line.plain.all,
        1 => line.predicted.all,
        2 => line.plain.kept,
        _ => line.predicted.kept,
    }
}

/// The bits of the counts of a line in a mode.
pub fn counts_at(line: &LineSizes, t: u8, mode: u8) -> u64
    requires cut { t ≤ 15 }
    requires mode { mode < 4 }
    ensures counts { result ≡ slice_index_or (cut_sizes_at line.now t).counts mode 0 }
    ensures few { result < 2 ^ 32 }
{
    u64::from(counts_of(line, mode)[t as usize])
}

/// The bits of the numbers of a line, without their signs where those stand apart. docs/FORMAT.md, 'Truncation, data and signs'.
pub fn numbers_at(line: &LineSizes, t: u8, signs_apart: bool) -> u64
    requires cut { t ≤ 15 }
    requires regular { AreRegular line.now }
    ensures numbers { result ≡ (if signs_apart then (cut_sizes_at line.now t).data_apart else (cut_sizes_at line.now t).data_in) }
    ensures few { result < 2 ^ 32 }
{
    let bits = plain_at(line, t);
    let next = next_at(line, t);
    let planes = bits - line.groups;
    if signs_apart {
        u64::from(4 * planes)
    } else {
        u64::from(4 * planes + 4 * (bits - next))
    }
}

// The bits of all counts that are predicted from nothing.
fn plain_at(line: &LineSizes, t: u8) -> u32
    requires cut { t ≤ 15 }
    requires regular { AreRegular line.now }
    ensures bits { result ≡ slice_index_or line.now.plain.all t 0 }
    ensures few { result < 2 ^ 28 }
    ensures least { line.now.groups ≤ result }
{
    u32::from(line.plain.all[t as usize])
}

// Those at the next truncation.
fn next_at(line: &LineSizes, t: u8) -> u32
    requires cut { t ≤ 15 }
    requires regular { AreRegular line.now }
    ensures next { result ≡ next_of line.now t }
    ensures most { result ≤ slice_index_or line.now.plain.all t 0 }
{
    if t == 15 {
        line.groups
    } else {
        plain_at(line, t + 1)
    }
}

/// The signs of a line that stand apart.
pub fn signs_at(line: &LineSizes, t: u8, quant: Quant) -> u64
    requires cut { t ≤ 15 }
    ensures signs { result ≡ signs_of quant (cut_sizes_at line.now t) }
    ensures few { result < 2 ^ 32 }
{
    match quant {
        Quant::DeadZone => u64::from(line.dead_zone[t as usize]),
        Quant::Uniform => u64::from(line.uniform[t as usize]),
    }
}
