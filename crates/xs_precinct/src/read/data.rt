// The numbers and the signs of the lines of a packet, whose counts were read: docs/FORMAT.md, 'Truncation, data and signs'.
ghost use Rattle.std.specs.Prelude.{◌≡◌, ◌*◌, ◌^◌, ◌<◌, ◌≤◌, true, false, List, length, OnOk, OnErr};
ghost use Rattle.std.specs.List.{AllByRecursion, sum_by};
ghost use Rattle.xs_lists.specs.Bits.{bits_of_bytes};
ghost use Rattle.xs_spelling.specs.Counts.{Line};
ghost use Rattle.xs_spelling.specs.Sizes.{data_size, signs_size};
ghost use Rattle.xs_reading.specs.Packet.{lines_with_data, lines_with_signs};
ghost use Rattle.xs_precinct.specs.Bands.{CountsOf, EachOf, HoldsNumbers, NumbersOf, SameCoded};

use crate::read::band::BandState;
use xs_bits::{BitReader, Ended};

/// Reads the numbers of lines, magnitudes alone where the signs stand apart.
pub fn read_data(apart: bool, bytes: &[u8], bands: &mut [BandState]) -> Result<(), Ended>
    requires few { length bytes.now < 2 ^ 28 }
    ensures coded { OnOk result (EachOf SameCoded bands.old bands.new) }
    ensures filled { OnOk result (AllByRecursion (HoldsNumbers apart) bands.new) }
    ensures enough { OnOk result ((lines : List Line) → EachOf CountsOf bands.old lines → sum_by (data_size apart) lines ≤ 8 * length bytes.now) }
    ensures read { OnOk result ((lines : List Line) → EachOf CountsOf bands.old lines → EachOf NumbersOf bands.new (lines_with_data apart lines (bits_of_bytes bytes.now))) }
    ensures ended { OnErr result ((lines : List Line) → EachOf CountsOf bands.old lines → 8 * length bytes.now < sum_by (data_size apart) lines) }
{
    let mut input = BitReader::new(bytes);
    'bands: for k in 0..bands.len() {
        bands[k].read_data(apart, &mut input)?;
    }
    Ok(())
}

/// Reads the signs of lines where they stand apart.
pub fn read_signs(bytes: &[u8], bands: &mut [BandState]) -> Result<(), Ended>
    requires few { length bytes.now < 2 ^ 28 }
    requires filled { AllByRecursion (HoldsNumbers true) bands.old }
    ensures coded { OnOk result (EachOf SameCoded bands.old bands.new) }
    ensures filled { OnOk result (AllByRecursion (HoldsNumbers false) bands.new) }
    ensures enough { OnOk result ((lines : List Line) → EachOf NumbersOf bands.old lines → sum_by signs_size lines ≤ 8 * length bytes.now) }
    ensures read { OnOk result ((lines : List Line) → EachOf NumbersOf bands.old lines → EachOf NumbersOf bands.new (lines_with_signs lines (bits_of_bytes bytes.now))) }
    ensures ended { OnErr result ((lines : List Line) → EachOf NumbersOf bands.old lines → 8 * length bytes.now < sum_by signs_size lines) }
{
    let mut input = BitReader::new(bytes);
    'bands: for k in 0..bands.len() {
        bands[k].read_signs(&mut input)?;
    }
    Ok(())
}
