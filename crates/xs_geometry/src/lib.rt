//! The band geometry of a header, and the rows of coefficients of a slice.
#![tactic(auto)]

ghost use Rattle.xs_geometry.specs.Laws.{AcceptedRanges, GeometryKept, LinesKept, RowLent, RowWritten};
ghost use Rattle.xs_geometry.specs.Lines.{LineInOnePacket, PacketsHaveLines, SliceHasLines, SliceHasPackets};

mod blocks;
mod geometry;
mod kinds;
mod packets;
mod rows;
mod sizes;
mod weighting;

pub use geometry::Geometry;
pub use kinds::BandKind;
pub use packets::PacketPlace;
pub use rows::SliceRows;
pub use weighting::truncation;

/// A row that was written changes its own line alone.
pub fn row_written()
    ensures { RowWritten }
{}

/// A row of the old one's length that is left behind a reference stands in its place.
pub fn row_lent()
    ensures { RowLent }
{}

/// The lines of a slice stay so when a row is written.
pub fn lines_kept()
    ensures { LinesKept }
{}

/// What is kept of an accepted header has the ranges of a geometry.
pub fn accepted_ranges()
    ensures { AcceptedRanges }
{}

/// What is kept of a header has its lines.
pub fn geometry_kept()
    ensures { GeometryKept }
{}

/// The bands of a packet have its line.
pub fn packets_have_lines()
    ensures { PacketsHaveLines }
{}

/// Each line of each band stands in one packet, of one precinct of one slice.
pub fn line_in_one_packet()
    ensures { LineInOnePacket }
{}

/// A slice has the lines of its precincts.
pub fn slice_has_lines()
    ensures { SliceHasLines }
{}

/// A slice has the lines of the packets of its precincts.
pub fn slice_has_packets()
    ensures { SliceHasPackets }
{}
