// A packet: the lines of some bands.
ghost use Rattle.std.specs.Prelude.{◌≡◌, ◌≢◌, ℕ, ◌+◌, ◌-◌, ◌*◌, ◌<◌, ◌≤◌, ◌^◌, true, false, if◌then◌else◌, Ok, List, length, IfOk, OnOk};
ghost use Rattle.std.specs.List.{AllByRecursion, sum_by};
ghost use Rattle.std.specs.Result.{result_err};
ghost use Rattle.xs_lists.specs.Bits.{bytes_for};
ghost use Rattle.xs_grammar.specs.Sizes.{head_size as head_bytes};
ghost use Rattle.xs_spelling.specs.Counts.{Line};
ghost use Rattle.xs_reading.specs.Packet.{bits_between, fault_of_counts, lines_with_signs, packet_end, packet_fault, packet_head, packet_lines};
ghost use Rattle.xs_precinct.specs.Bands.{CountsOf, EachOf, Follows, IsBand, HoldsNumbers, Knows, NumbersOf, SameCoded, flags_of};
ghost use Rattle.xs_precinct.specs.Parts.{counted_in, counts_fault, numbers_fault, numbers_in_parts, signs_fault};

use crate::read::band::BandState;
use crate::read::bits::{fields_of, next};
use crate::read::counts::{CountForm, flag_count, read_counts};
use crate::read::data::{read_data, read_signs};
use xs_bits::Ended;
use xs_faults::{CountFault, Part, PrecinctFault};
use xs_params::Header;

/// The number that a packet has in its precinct, and what is left of the precinct's bytes.
#[derive(Clone, Copy)]
pub struct Packet<'a> {
    pub number: u32,
    pub bytes: &'a [u8],
}

/// What the header of a packet states.
#[derive(Clone, Copy)]
struct Head {
    raw: bool,
    data_bytes: u32,
    count_bytes: u32,
    sign_bytes: u32,
}

/// Where the parts of a packet begin, as its header states it, and where it ends.
#[derive(Clone, Copy)]
struct Places {
    flags_at: usize,
    counts_at: usize,
    data_at: usize,
    signs_at: usize,
    end: usize,
}

fn head_size(long: bool) -> usize
    ensures { result ≡ (if long then 7 else 5) }
{
    if long { 7 } else { 5 }
}

// Slice, precinct and packet: Dr, Ldat, Lcnt, Lsgn.
fn read_head(bytes: &[u8], long: bool) -> Head
    requires few { length bytes.now < 2 ^ 28 }
    requires whole { (if long then 7 else 5) ≤ length bytes.now }
    ensures head { packet_head long bytes.now ≡ record { raw = result.raw; data_bytes = result.data_bytes; count_bytes = result.count_bytes; sign_bytes = result.sign_bytes } }
    ensures few { (result.data_bytes < 2 ^ 20) × (result.count_bytes < 2 ^ 20) × (result.sign_bytes < 2 ^ 15) }
{
    let mut input = fields_of(bytes);
    let raw = next(&mut input, 1) == 1;
    if long {
        Head {
            raw,
            data_bytes: next(&mut input, 20),
            count_bytes: next(&mut input, 20),
            sign_bytes: next(&mut input, 15),
        }
    } else {
        Head {
            raw,
            data_bytes: next(&mut input, 15),
            count_bytes: next(&mut input, 13),
            sign_bytes: next(&mut input, 11),
        }
    }
}

// The parts of a packet of the bands' next lines. Slice, precinct and packet: significance, counts, data, signs.
fn places_of(header: &Header, head: Head, bands: &[BandState]) -> Places
    requires few { length bands.now ≤ 64 }
    requires head { (head.data_bytes < 2 ^ 20) × (head.count_bytes < 2 ^ 20) × (head.sign_bytes < 2 ^ 15) }
    ensures flags { result.flags_at ≡ head_bytes header.now }
    ensures counts { result.counts_at ≡ head_bytes header.now + (if head.raw then 0 else bytes_for (sum_by flags_of bands.now)) }
    ensures data { result.data_at ≡ result.counts_at + head.count_bytes }
    ensures signs { result.signs_at ≡ result.data_at + head.data_bytes }
    ensures end { result.end ≡ result.signs_at + (if header.now.signs_apart then head.sign_bytes else 0) }
    ensures bands { AllByRecursion IsBand bands.now }
{
    let flags_at = head_size(header.long_heads);
    let counts_at = flags_at + flag_bytes(head.raw, bands);
    let data_at = counts_at + head.count_bytes as usize;
    let signs_at = data_at + head.data_bytes as usize;
    Places {
        flags_at,
        counts_at,
        data_at,
        signs_at,
        end: signs_at + signs_apart(header, head),
    }
}

// The bytes of the flags; with raw counts there are none.
fn flag_bytes(raw: bool, bands: &[BandState]) -> usize
    requires few { length bands.now ≤ 64 }
    ensures size { result ≡ (if raw then 0 else bytes_for (sum_by flags_of bands.now)) }
    ensures few { result ≤ 2 ^ 12 }
    ensures bands { AllByRecursion IsBand bands.now }
{
    let count = flag_count(bands);
    if raw { 0 } else { (count + 7) / 8 }
}

// The bytes of signs that stand apart; where they do not, what is stated has no effect.
fn signs_apart(header: &Header, head: Head) -> usize
    ensures { result ≡ (if header.now.signs_apart then head.sign_bytes else 0) }
{
    if header.signs_apart {
        head.sign_bytes as usize
    } else {
        0
    }
}

fn overrun(packet: u32, part: Part) -> PrecinctFault
    ensures { result ≡ PrecinctFault.Overrun packet part }
{
    PrecinctFault::Overrun { packet, part }
}

fn count_fault(packet: u32, fault: CountFault) -> PrecinctFault
    ensures { result ≡ fault_of_counts packet fault }
{
    match fault {
        CountFault::Ended => overrun(packet, Part::Counts),
        CountFault::Range { value, .. } => PrecinctFault::Count { packet, value },
        CountFault::Memory => PrecinctFault::Memory,
    }
}

/// Reads a packet of the bands' next lines from the front of the bytes. The answer is the number of its bytes, or its first fault.
pub fn read_packet(
    header: &Header,
    packet: &Packet,
    bands: &mut [BandState],
) -> Result<usize, PrecinctFault>
    requires run_mode { header.now.run_mode ≤ 1 }
    requires few { length packet.now.bytes.now < 2 ^ 24 }
    requires bands { length bands.old ≤ 64 }
    ensures fault { (lines : List Line) → EachOf Knows bands.old lines → result_err result ≡ packet_fault header.now packet.now.number lines packet.now.bytes.now }
    ensures ends { IfOk result (λ size. (lines : List Line) → EachOf Knows bands.old lines → size ≡ packet_end header.now lines packet.now.bytes.now) }
    ensures within { IfOk result (λ size. size ≤ length packet.now.bytes.now) }
    ensures read { OnOk result ((lines : List Line) → EachOf Knows bands.old lines → EachOf NumbersOf bands.new (packet_lines header.now lines packet.now.bytes.now)) }
    ensures follow { OnOk result (EachOf Follows bands.old bands.new) }
    ensures filled { OnOk result (AllByRecursion (HoldsNumbers false) bands.new) }
    ensures bands { OnOk result (AllByRecursion IsBand bands.old) }
{
    if packet.bytes.len() < head_size(header.long_heads) {
        return Err(overrun(packet.number, Part::Head));
    }
    let head = read_head(packet.bytes, header.long_heads);
    let places = places_of(header, head, bands);
    let form = CountForm {
        raw: head.raw,
        run_mode: header.run_mode,
    };
    read_all_counts(form, packet, places, bands)?;
    read_all_numbers(header.signs_apart, packet, places, bands)?;
    Ok(places.end)
}

// Reads the flags and the counts of the lines.
fn read_all_counts(
    form: CountForm,
    packet: &Packet,
    places: Places,
    bands: &mut [BandState],
) -> Result<(), PrecinctFault>
    requires run_mode { form.run_mode ≤ 1 }
    requires few { length packet.now.bytes.now < 2 ^ 24 }
    requires order { (places.flags_at ≤ places.counts_at) × (places.counts_at ≤ places.data_at) }
    requires flags { places.counts_at ≡ places.flags_at + (if form.raw then 0 else bytes_for (sum_by flags_of bands.old)) }
    ensures fault { (lines : List Line) → EachOf Knows bands.old lines → result_err result ≡ counts_fault packet.now.number (counted_in form.raw form.run_mode lines packet.now.bytes.now places.flags_at places.counts_at places.data_at) places.counts_at places.data_at (length packet.now.bytes.now) }
    ensures read { OnOk result ((lines : List Line) → EachOf Knows bands.old lines → (counted : List Line) × (rest : List ℕ) × EachOf CountsOf bands.new counted × (counted_in form.raw form.run_mode lines packet.now.bytes.now places.flags_at places.counts_at places.data_at ≡ Ok (counted, rest))) }
    ensures follow { OnOk result (EachOf Follows bands.old bands.new) }
{
    if packet.bytes.len() < places.counts_at {
        return Err(overrun(packet.number, Part::Significance));
    }
    if packet.bytes.len() < places.data_at {
        return Err(overrun(packet.number, Part::Counts));
    }
    let significance = &packet.bytes[places.flags_at..places.counts_at];
    let counts = &packet.bytes[places.counts_at..places.data_at];
    match read_counts(form, significance, counts, bands) {
        Ok(()) => Ok(()),
        Err(fault) => Err(count_fault(packet.number, fault)),
    }
}

// Reads the data of the lines, whose counts were read, and the signs where they stand apart.
fn read_all_numbers(
    apart: bool,
    packet: &Packet,
    places: Places,
    bands: &mut [BandState],
) -> Result<(), PrecinctFault>
    requires few { length packet.now.bytes.now < 2 ^ 24 }
    requires order { (places.data_at ≤ places.signs_at) × (places.signs_at ≤ places.end) }
    ensures fault { (lines : List Line) → EachOf CountsOf bands.old lines → result_err result ≡ numbers_fault packet.now.number apart lines packet.now.bytes.now places.data_at places.signs_at places.end }
    ensures read { OnOk result ((lines : List Line) → EachOf CountsOf bands.old lines → EachOf NumbersOf bands.new (numbers_in_parts apart lines packet.now.bytes.now places.data_at places.signs_at places.end)) }
    ensures within { OnOk result ((places.signs_at ≤ length packet.now.bytes.now) × (apart ≡ true → places.end ≤ length packet.now.bytes.now)) }
    ensures coded { OnOk result (EachOf SameCoded bands.old bands.new) }
    ensures filled { OnOk result (AllByRecursion (HoldsNumbers false) bands.new) }
{
    if packet.bytes.len() < places.signs_at {
        return Err(overrun(packet.number, Part::Data));
    }
    let data = &packet.bytes[places.data_at..places.signs_at];
    if let Err(Ended) = read_data(apart, data, bands) {
        return Err(overrun(packet.number, Part::Data));
    }
    if apart {
        read_all_signs(packet, places, bands)
    } else {
        Ok(())
    }
}

// Reads the signs of the lines, whose magnitudes were read.
fn read_all_signs(
    packet: &Packet,
    places: Places,
    bands: &mut [BandState],
) -> Result<(), PrecinctFault>
    requires few { length packet.now.bytes.now < 2 ^ 24 }
    requires order { places.signs_at ≤ places.end }
    requires filled { AllByRecursion (HoldsNumbers true) bands.old }
    ensures fault { (lines : List Line) → EachOf NumbersOf bands.old lines → result_err result ≡ signs_fault packet.now.number lines packet.now.bytes.now places.signs_at places.end }
    ensures read { OnOk result ((lines : List Line) → EachOf NumbersOf bands.old lines → EachOf NumbersOf bands.new (lines_with_signs lines (bits_between packet.now.bytes.now places.signs_at places.end))) }
    ensures within { OnOk result (places.end ≤ length packet.now.bytes.now) }
    ensures coded { OnOk result (EachOf SameCoded bands.old bands.new) }
    ensures filled { OnOk result (AllByRecursion (HoldsNumbers false) bands.new) }
{
    if packet.bytes.len() < places.end {
        return Err(overrun(packet.number, Part::Signs));
    }
    let signs = &packet.bytes[places.signs_at..places.end];
    match read_signs(signs, bands) {
        Ok(()) => Ok(()),
        Err(Ended) => Err(overrun(packet.number, Part::Signs)),
    }
}
