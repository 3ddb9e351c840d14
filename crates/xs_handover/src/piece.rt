// The rows of a slice that one stripe needs.
use xs_geometry::SliceRows;
use xs_io::Octets;
use xs_params::Header;
use xs_stripe::Edge;

// All rows, or those of one edge.
#[derive(Drop)]
pub enum Piece {
    // All rows of the slice, for its own stripe.
    Body(SliceRows),
    // What the stripe before needs of the slice.
    Up(Edge),
    // What the stripe after needs of the slice.
    Down(Edge),
}

// A slice as it was sent: its header, its number, and the bytes of its unit.
#[derive(Drop)]
pub struct SliceSource {
    pub header: Header,
    pub slice: u32,
    pub bytes: Octets,
}
