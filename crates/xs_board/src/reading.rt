// What is read of a header unit.
use xs_faults::HeadFault;
use xs_params::Header;

/// What a header unit says, boxes and a header, or its first fault.
#[derive(Drop)]
pub enum Reading {
    /// The header, and its length in bytes from its start marker on.
    Good { header: Header, length: u32 },
    /// Places in boxes count from the unit's first byte, and others from the start marker.
    Bad(HeadFault),
}
