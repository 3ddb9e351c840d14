// The modes of the bands of a precinct: docs/FORMAT.md, 'Rate choice'.
ghost use Rattle.std.specs.Prelude.{◌≡◌, ℕ, ◌<◌, true, length, slice_index_or};
ghost use Rattle.xs_params.specs.Geometry.{bands_of};
ghost use Rattle.xs_sizes.specs.Counted.{AreCountsOf};
ghost use Rattle.xs_precinct_write.specs.Outgoing.{HaveModes, HaveRoom};
ghost use Rattle.xs_precinct_write.specs.Sent.{AreModesIn, HasPrecinct, modes_in};

use crate::write::line::OutgoingLine;
use crate::write::precinct::FilledPrecinct;
use crate::write::slice::SliceAt;
use xs_sizes::{Coding, SliceCounts, cuts_of, precinct_modes};

/// The modes of the bands in a precinct, by the counts of the slice; 0 past the last band.
pub fn modes_at(at: &SliceAt, counts: &SliceCounts, precinct: u32) -> [u8; 30]
    requires precinct { HasPrecinct at.now precinct }
    requires counts { AreCountsOf at.now.geometry.now at.now.rows.now counts.now }
    requires signs { at.now.header.now.signs_apart ≡ true → counts.now.signs ≡ true }
    ensures { AreModesIn at.now precinct result }
{
    let coding = Coding {
        geometry: at.geometry,
        counts,
        signs_apart: at.header.signs_apart,
        quant: at.header.quant,
    };
    let _bands = at.geometry.bands();
    precinct_modes(
        &coding,
        precinct,
        &cuts_of(&at.header.weights, at.candidate),
    )
}

/// Gives each band the mode that it has in a precinct.
pub fn set_modes(at: &SliceAt, wanted: FilledPrecinct, lines: &mut [OutgoingLine])
    requires precinct { HasPrecinct at.now wanted.precinct }
    requires modes { AreModesIn at.now wanted.precinct wanted.modes }
    requires room { HaveRoom at.now.header.now lines.old }
    ensures modes { HaveModes at.now.header.now (modes_in at.now wanted.precinct) lines.new }
    ensures room { HaveRoom at.now.header.now lines.new }
{
    'bands: for band in 0..at.geometry.bands() {
        set_mode(at, wanted, band, &mut lines[band as usize]);
    }
}

// Gives a band its mode.
fn set_mode(at: &SliceAt, wanted: FilledPrecinct, band: u32, line: &mut OutgoingLine)
    requires precinct { HasPrecinct at.now wanted.precinct }
    requires modes { AreModesIn at.now wanted.precinct wanted.modes }
    requires band { band < bands_of at.now.header.now }
    ensures mode { line.new.mode ≡ modes_in at.now wanted.precinct band }
    ensures room { length line.new.counts ≡ length line.old.counts }
{
    line.set_mode(wanted.modes[band as usize]);
}
