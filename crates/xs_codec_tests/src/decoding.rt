// Pictures of coefficients that are made by a rule. The expected samples come from bench/checksums.py.
ghost use Rattle.std.specs.Prelude.{◌≡◌, ℕ, ◌+◌, ◌*◌, ◌^◌, ◌<◌, ◌≤◌, length, unsigned_abs, IfOk};
ghost use Rattle.xs_params.specs.declared.header.Header.{Header};
ghost use Rattle.xs_params.specs.Accepted.{IsAccepted};
ghost use Rattle.xs_params.specs.Geometry.{bands_of, precinct_count, slice_count};
ghost use Rattle.xs_geometry.specs.SliceLines.{HasLine};
ghost use Rattle.xs_picture.specs.Coefs.{AreCoefs};
ghost use Rattle.xs_rate.specs.Laws.{IsSmallRow};
ghost use Rattle.xs_signal.specs.Lines.{entries_of};
ghost use Rattle.xs_codec_tests.specs.Made.{IsMade};

use std::alloc::Global;
use std::test::Fail;
use xs_geometry::{Geometry, SliceRows};
use xs_io::{Memory, Octets};
use xs_params::{Format, Header, Mode, Planes, Quant, Settings, Shape};
use xs_picture::{StreamCoefs, decode_coefs};

/// The rules that coefficients are made by.
#[derive(Clone, Copy, Debug, PartialEq, Eq)]
pub(crate) enum Rule {
    /// One brighter with each column and each line of the first band, and nothing in the others.
    Ramp,
    /// Numbers of both signs, some of which lead to samples that are too great or too small.
    Mixed,
    /// Rows of two slices of four lines of the first band: 128, and 136 in the second.
    Beside,
}

fn number(rule: Rule, band: u32, line: u32, column: u32) -> i32
    ensures small { unsigned_abs result < 2 ^ 15 }
{
    match rule {
        Rule::Ramp if band == 0 => (16 * (column % 1000 + line % 1000)) as i32,
        Rule::Ramp => 0,
        Rule::Mixed => {
            let sum = band % 100 * 37 + line % 1000 * 11 + column % 1000 * 7;
            let step = (sum + line % 1000 * (column % 1000)) % 31;
            step as i32 * 160 - 2400
        }
        Rule::Beside => number_beside(band, line),
    }
}

// The first slice ends in rows that are brought to 0 by the first row of the second.
fn number_beside(band: u32, line: u32) -> i32
    ensures small { unsigned_abs result < 2 ^ 15 }
{
    match (band, line) {
        (0, 3) => -16,
        (0, 4) => 64,
        (2, 3) | (5, 7) => -64,
        _ => 0,
    }
}

// Up to nine numbers that stand between blanks.
fn numbers_of(row: &str) -> [u32; 9] {
    let mut numbers = [0; 9];
    let mut place = 0;
    for part in row.split(' ') {
        if place < 9 {
            numbers[place] = part.parse::<u32>().unwrap_or(0);
            place += 1;
        }
    }
    numbers
}

fn byte(number: u32) -> u8 {
    (number % 256) as u8
}

// What an encoder is asked for by width, height, format, depth, levels across and down, colour and slice height.
fn settings_of(alloc: Global, numbers: [u32; 9]) -> Settings {
    let [width, height, format, depth, nlx, nly, colour, hsl, _] = numbers;
    Settings {
        shape: Shape {
            width,
            height,
            format: match format {
                444 => Format::C444,
                422 => Format::C422,
                _ => Format::Mono,
            },
            depth: byte(depth),
        },
        bits: 20,
        nlx: byte(nlx),
        nly: byte(nly),
        hsl: u16::from(byte(hsl)),
        colour: colour == 1,
        quant: Quant::DeadZone,
        signs_apart: false,
        weights: None,
        share: 4000,
        fill: false,
        chunk: 1400,
        mode: Mode::Slice,
        payload_type: 96,
        ssrc: 1,
        first_timestamp: 0,
        step: 1500,
        boxes: Octets::new(alloc),
        workers: 4,
        feeders: 2,
        port: 5004,
    }
}

// The picture of a row's numbers, made by a rule; none where the settings are refused.
fn picture_of(alloc: Global, row: &str, rule: Rule) -> Result<Option<Planes>, Memory> {
    match settings_of(alloc, numbers_of(row)).check() {
        Ok(checked) => {
            let coefs = coefs(alloc, checked.header(alloc)?, rule)?;
            Ok(Some(decode_coefs(alloc, &coefs)?))
        }
        Err(_) => Ok(None),
    }
}

// The coefficients of a codestream, by a rule.
fn coefs(alloc: Global, header: Header, rule: Rule) -> Result<StreamCoefs, Memory>
    requires { IsAccepted header }
    ensures { IfOk result AreCoefs }
{
    let geometry = Geometry::of(&header);
    let mut coefs = StreamCoefs::new(alloc, header);
    'slices: for slice in 0..geometry.slices() {
        let rows = slice_rows(alloc, &geometry, slice, rule)?;
        coefs.push(rows)?;
    }
    Ok(coefs)
}

pub(crate) fn slice_rows(
    alloc: Global,
    geometry: &Geometry,
    slice: u32,
    rule: Rule,
) -> Result<SliceRows, Memory>
    requires { slice < slice_count geometry.now }
    ensures { IfOk result (IsMade geometry.now slice) }
{
    let mut rows = SliceRows::blank(alloc, geometry, slice)?;
    let (first, end) = geometry.slice_precincts(slice);
    for precinct in first..end {
        fill_precinct(alloc, geometry, slice, precinct, rule, &mut rows)?;
    }
    Ok(rows)
}

fn fill_precinct(
    alloc: Global,
    geometry: &Geometry,
    slice: u32,
    precinct: u32,
    rule: Rule,
    rows: &mut SliceRows,
) -> Result<(), Memory>
    requires there { precinct < precinct_count geometry.now }
    requires from { slice * geometry.now.hsl ≤ precinct }
    requires to { precinct < (slice + 1) * geometry.now.hsl }
    requires lines { IsMade geometry.now slice rows.old }
    ensures { IsMade geometry.now slice rows.new }
{
    for band in 0..geometry.bands() {
        fill_band(alloc, geometry, slice, precinct, band, rule, rows)?;
    }
    Ok(())
}

fn fill_band(
    alloc: Global,
    geometry: &Geometry,
    slice: u32,
    precinct: u32,
    band: u32,
    rule: Rule,
    rows: &mut SliceRows,
) -> Result<(), Memory>
    requires there { precinct < precinct_count geometry.now }
    requires from { slice * geometry.now.hsl ≤ precinct }
    requires to { precinct < (slice + 1) * geometry.now.hsl }
    requires band { band < bands_of geometry.now }
    requires lines { IsMade geometry.now slice rows.old }
    ensures { IsMade geometry.now slice rows.new }
{
    let (from, to) = geometry.lines(precinct, band);
    for line in from..to {
        fill_row(alloc, band, line, rule, rows)?;
    }
    Ok(())
}

fn fill_row(
    alloc: Global,
    band: u32,
    line: u32,
    rule: Rule,
    rows: &mut SliceRows,
) -> Result<(), Memory>
    requires { HasLine rows.old band line }
    ensures { (h : Header) (slice : ℕ) → IsMade h slice rows.old → IsMade h slice rows.new }
{
    let count = rows.row(band, line).len();
    let values = numbers(alloc, rule, band, line, count)?;
    rows.put_row(band, line, values.as_slice());
    Ok(())
}

fn numbers(
    alloc: Global,
    rule: Rule,
    band: u32,
    line: u32,
    count: usize,
) -> Result<Vec<i32>, Memory>
    ensures count { IfOk result (λ list. length list.items ≡ count) }
    ensures small { IfOk result (λ list. IsSmallRow (entries_of list.items)) }
{
    let mut list = Vec::new(alloc);
    for column in 0..count {
        list.push(number(rule, band, line, (column % 8192) as u32))
            .map_err(|_| Memory)?;
    }
    Ok(list)
}

// A number that depends on each sample and its place.
fn check_of(picture: &Planes) -> u32 {
    let shape = *picture.shape();
    let mut check: u32 = 0;
    for component in 0..shape.format.components() {
        for row in 0..shape.height {
            for sample in picture.row(component, row) {
                check = check.wrapping_mul(31).wrapping_add(u32::from(*sample));
            }
        }
    }
    check
}

// Whether the picture of a row has the check that stands last in the row.
fn has_check(alloc: Global, row: &str) -> Result<bool, Memory> {
    let [.., check] = numbers_of(row);
    match picture_of(alloc, row, Rule::Mixed)? {
        Some(picture) => Ok(check_of(&picture) == check),
        None => Ok(false),
    }
}

// Width, height, format, depth, levels across and down, colour, slice height; and the check, as bench/checksums.py has it.
const MIXED: &str = "\
32 4 1 8 1 0 0 1 4145327184
33 5 1 8 1 0 0 4 3426467695
34 4 1 10 2 0 0 3 2701460244
35 7 1 8 2 1 0 1 2385173051
36 6 422 12 3 2 0 2 2208633088
37 9 422 8 4 1 0 2 1583929086
37 8 444 10 5 2 0 1 2572470827
34 5 444 8 1 1 1 2 1972604870
35 4 444 12 3 0 1 1 2563834178
33 9 444 10 5 2 1 1 1820073300";

#[test]
fn pictures_of_mixed_numbers(rt: HostRuntime) -> Result<(), Fail> {
    for row in MIXED.split('\n') {
        assert!(rt; has_check(rt.alloc(), row)?, "{row}");
    }
    Ok(())
}

// Lines of one brighter with each two columns: an even column has its coefficient, an odd one half of the two beside it, rounded
// up, and the last one of an even width that of the column before it.
fn has_ramp(picture: &Planes, row: u32, width: u32) -> bool
    requires there { row < picture.now.shape.height }
    requires few { row < 4 }
    requires narrow { width ≤ 64 }
{
    let mut column = 0;
    for sample in picture.row(0, row) {
        let place = column % 64;
        let last = place % 2 == 1 && place + 1 == width;
        let step = if last { place / 2 } else { (place + 1) / 2 };
        if u32::from(*sample) != 128 + row + step {
            return false;
        }
        column = place + 1;
    }
    true
}

// Whether the picture of four lines of this width is a ramp.
fn is_ramp(alloc: Global, width: u32) -> Result<bool, Memory>
    requires { width ≤ 64 }
{
    let row = format!(in alloc; "{width} 4 1 8 1 0 0 3").map_err(|_| Memory)?;
    let Some(picture) = picture_of(alloc, row.as_str(), Rule::Ramp)? else {
        return Ok(false);
    };
    for row in 0..picture.shape().height.min(4) {
        if !has_ramp(&picture, row, width) {
            return Ok(false);
        }
    }
    Ok(picture.shape().height == 4)
}

#[test]
fn lines_of_even_and_of_odd_length(rt: HostRuntime) -> Result<(), Fail> {
    for width in 32..38 {
        assert!(rt; is_ramp(rt.alloc(), width)?);
    }
    Ok(())
}
