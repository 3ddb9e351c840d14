// The rows of a slice at a candidate, line by line.
ghost use Rattle.std.specs.Prelude.{◌≡◌, ℕ, ◌<◌, ◌≤◌, length, slice_index_or};
ghost use Rattle.xs_layout.specs.Geometry.{groups_of};
ghost use Rattle.xs_layout.specs.Weighting.{truncation_of};
ghost use Rattle.xs_params.specs.Geometry.{band_width_of, bands_of};
ghost use Rattle.xs_geometry.specs.SliceLines.{HasLine, rows_held};
ghost use Rattle.xs_grammar.specs.Precinct.{coded_line, weight_of};
ghost use Rattle.xs_precinct_write.specs.Outgoing.{HaveRoom, IsAlike, IsCounted, IsSentAs, no_outgoing};
ghost use Rattle.xs_precinct_write.specs.Sent.{AreLinesAlike, IsSliceAt, content_in};

use crate::write::line::OutgoingLine;
use xs_geometry::{Geometry, SliceRows, truncation};
use xs_layout::Candidate;
use xs_params::Header;

/// The rows of a slice of a picture at a candidate.
#[derive(Clone, Copy)]
pub struct SliceAt<'a> {
    pub header: &'a Header,
    pub geometry: &'a Geometry,
    pub rows: &'a SliceRows,
    pub candidate: Candidate,
}

// How many planes are cut off a band. Truncation, data and signs: T.
fn cut_of(at: &SliceAt, band: u32) -> u8
    requires { band < length at.now.header.now.weights }
    ensures cut { result ≡ truncation_of at.now.candidate.q at.now.candidate.r (weight_of at.now.header.now band) }
    ensures few { result ≤ 15 }
{
    let weight = at.header.weights.as_slice()[band as usize];
    truncation(at.candidate.q, at.candidate.r, weight)
}

/// Takes the counts of a line of a band, and those of the line above it in the slice.
pub fn count_line(at: &SliceAt, band: u32, number: u32, line: &mut OutgoingLine)
    requires rows { (slice : ℕ) × IsSliceAt slice at.now }
    requires there { HasLine at.now.rows.now band number }
    requires room { length line.old.counts ≡ groups_of (band_width_of at.now.header.now band) }
    ensures counted { IsCounted at.now.header.now (rows_held at.now.rows.now) at.now.candidate band number line.new }
    ensures alike { IsAlike line.old line.new }
{
    line.count(cut_of(at, band), at.rows.row(band, number));
    let (first, _) = at.rows.lines(band);
    if number > first {
        line.count_above(at.rows.row(band, number - 1));
    }
}

// Takes the counts and the numbers of a line of a band.
fn load_line(at: &SliceAt, band: u32, number: u32, line: &mut OutgoingLine)
    requires rows { (slice : ℕ) × IsSliceAt slice at.now }
    requires there { HasLine at.now.rows.now band number }
    requires room { length line.old.counts ≡ groups_of (band_width_of at.now.header.now band) }
    ensures sent { IsSentAs (coded_line at.now.header.now (content_in at.now) line.old.mode band number) line.new }
    ensures alike { IsAlike line.old line.new }
{
    count_line(at, band, number, line);
    line.quantise(at.header.quant, at.rows.row(band, number));
}

/// The same of a line of each band from the first up to the end.
pub fn load_lines(at: &SliceAt, bands: (u32, u32), number: u32, lines: &mut [OutgoingLine])
    requires rows { (slice : ℕ) × IsSliceAt slice at.now }
    requires there { (band : ℕ) → bands.0 ≤ band → band < bands.1 → HasLine at.now.rows.now band number }
    requires end { bands.1 ≤ bands_of at.now.header.now }
    requires room { HaveRoom at.now.header.now lines.old }
    ensures sent { (band : ℕ) → bands.0 ≤ band → band < bands.1 → IsSentAs (coded_line at.now.header.now (content_in at.now) (slice_index_or lines.old band no_outgoing).mode band number) (slice_index_or lines.new band no_outgoing) }
    ensures alike { AreLinesAlike lines.old lines.new }
{
    'bands: for band in bands.0..bands.1 {
        load_line(at, band, number, &mut lines[band as usize]);
    }
}
