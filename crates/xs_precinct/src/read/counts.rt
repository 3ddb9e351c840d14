// The flags and the counts of the lines of a packet: docs/FORMAT.md, 'Bit-plane counts'.
ghost use Rattle.std.specs.Prelude.{◌≡◌, ℕ, ◌*◌, ◌^◌, ◌<◌, ◌≤◌, ◌++◌, [], true, false, ◌&&◌, if◌then◌else◌, Ok, Err, List, length, map, slice_index_or, IfOk, IfErr, OnOk, OnErr};
ghost use Rattle.std.specs.List.{AllByRecursion, sum_by};
ghost use Rattle.xs_bits.specs.Counts.{AreCounts};
ghost use Rattle.xs_bits.specs.Reading.{left};
ghost use Rattle.xs_layout.specs.Geometry.{significance_groups_of};
ghost use Rattle.xs_lists.specs.Bits.{bit_of, bits_of_bytes};
ghost use Rattle.xs_spelling.specs.Counts.{Line, has_flags, predicted, predicts_above};
ghost use Rattle.xs_spelling.specs.Reading.{read_each, read_line_counts};
ghost use Rattle.xs_counts.specs.Known.{IsPredictor, flag_of, known_line};
ghost use Rattle.xs_reading.specs.Packet.{flagged, read_counted};
ghost use Rattle.xs_precinct.specs.Bands.{Band, CountsOf, EachOf, Follows, IsBand, Knows, flags_of};

use crate::read::band::BandState;
use xs_bits::{BitReader, Counts, Ended};
use xs_counts::{Flags, Predictor, read_counts_into, read_raw_into};
use xs_faults::CountFault;

/// How counts are coded: raw, or by what is predicted, with the run mode for those that have no bits.
#[derive(Clone, Copy)]
pub struct CountForm {
    pub raw: bool,
    pub run_mode: u8,
}

/// The same of one line, with its mode, predictor and flags.
#[derive(Clone, Copy)]
pub struct LineForm<'a> {
    pub form: CountForm,
    pub mode: u8,
    pub predictor: Predictor<'a>,
    pub flags: &'a Flags,
}

/// The mode that has an effect: none where the counts are raw.
pub fn coded_mode(form: CountForm, mode: u8) -> u8
    requires { mode ≤ 3 }
    ensures mode { result ≡ (if form.raw then 0 else mode) }
    ensures few { result ≤ 3 }
{
    if form.raw { 0 } else { mode }
}

/// What a line is predicted from: the line above, if there is one.
pub fn predictor_of<'a>(there: bool, counts: &'a Counts, above_t: u8, t: u8) -> Predictor<'a>
    requires above { above_t ≤ 15 }
    requires cut { t ≤ 15 }
    ensures predictor { IsPredictor (length counts.now) result }
    ensures cut { result.t ≡ t }
    ensures prediction { (mode group : ℕ) → (known_line (length counts.now) result mode).prediction group ≡ (if predicts_above mode && there then predicted (slice_index_or counts.now group 0) above_t t else t) }
{
    Predictor {
        above: if there { Some(counts) } else { None },
        above_t,
        t,
    }
}

/// Reads the flags of a line, which are there. Without bit 1 of the mode there are none.
pub fn read_flags(mode: u8, flags: &mut Flags, input: &mut BitReader)
    requires mode { mode ≤ 3 }
    requires there { has_flags mode ≡ true → length flags.old ≤ length (left input.old) }
    ensures read { has_flags mode ≡ true → left input.old ≡ map bit_of flags.new ++ left input.new }
    ensures none { has_flags mode ≡ false → left input.new ≡ left input.old }
    ensures count { length flags.new ≡ length flags.old }
{
    if mode >= 2 {
        flags.read(input).unwrap();
    }
}

/// Reads the counts of a line.
pub fn read_line(line: &LineForm, input: &mut BitReader, into: &mut [u8]) -> Result<(), CountFault>
    requires mode { line.now.mode ≤ 3 }
    requires run_mode { line.now.form.run_mode ≤ 1 }
    requires few { length into.old ≤ 2048 }
    requires predictor { IsPredictor (length into.old) line.now.predictor }
    requires flags { significance_groups_of (length into.old) ≤ length line.now.flags.now }
    ensures read { OnOk result (read_line_counts line.now.form.raw line.now.form.run_mode (known_line (length into.old) line.now.predictor line.now.mode) (flag_of line.now.flags.now) (left input.old) ≡ Ok (into.new, left input.new)) }
    ensures range { OnOk result (AreCounts into.new) }
    ensures refused { IfErr result (λ fault. read_line_counts line.now.form.raw line.now.form.run_mode (known_line (length into.old) line.now.predictor line.now.mode) (flag_of line.now.flags.now) (left input.old) ≡ Err fault) }
{
    if line.form.raw {
        match read_raw_into(input, into) {
            Ok(()) => Ok(()),
            Err(Ended) => Err(CountFault::Ended),
        }
    } else {
        read_counts_into(
            input,
            &line.predictor,
            line.mode,
            line.form.run_mode,
            line.flags,
            into,
        )
    }
}

/// How many flags the next lines of some bands have.
pub fn flag_count(bands: &[BandState]) -> usize
    requires few { length bands.now ≤ 64 }
    ensures count { result ≡ sum_by flags_of bands.now }
    ensures few { result ≤ 2 ^ 14 }
    ensures bands { AllByRecursion IsBand bands.now }
{
    let mut count = 0;
    'bands: for k in 0..bands.len() {
        count += bands[k].flag_count();
    }
    count
}

/// Reads the flags and the counts of the next lines of some bands, each from bytes of their own.
pub fn read_counts(
    form: CountForm,
    significance: &[u8],
    counts: &[u8],
    bands: &mut [BandState],
) -> Result<(), CountFault>
    requires run_mode { form.run_mode ≤ 1 }
    requires few { (length significance.now < 2 ^ 28) × (length counts.now < 2 ^ 28) }
    requires raw { form.raw ≡ true → significance.now ≡ [] }
    requires there { form.raw ≡ false → sum_by flags_of bands.old ≤ 8 * length significance.now }
    ensures follow { OnOk result (EachOf Follows bands.old bands.new) }
    ensures read { OnOk result ((lines : List Line) → EachOf Knows bands.old lines → (counted : List Line) × (rest : List ℕ) × EachOf CountsOf bands.new counted × (read_each (read_counted form.raw form.run_mode) (flagged lines (bits_of_bytes significance.now)) (bits_of_bytes counts.now) ≡ Ok (counted, rest))) }
    ensures refused { IfErr result (λ fault. (lines : List Line) → EachOf Knows bands.old lines → read_each (read_counted form.raw form.run_mode) (flagged lines (bits_of_bytes significance.now)) (bits_of_bytes counts.now) ≡ Err fault) }
{
    let mut flags = BitReader::new(significance);
    let mut input = BitReader::new(counts);
    'bands: for k in 0..bands.len() {
        bands[k].read_counts(form, &mut flags, &mut input)?;
    }
    Ok(())
}
