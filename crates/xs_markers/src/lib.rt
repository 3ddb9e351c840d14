//! The headers of codestreams of JPEG XS, ISO/IEC 21122-1: what is written is read again, and bytes either begin with a
//! header, which is read, or have a first fault, which is told.
#![tactic(auto)]

mod boxes;
mod codes;
mod components;
mod fields;
mod kinds;
mod laws;
mod numbers;
mod picture;
mod read;
mod rules;
mod seen;
mod segments;
mod write;

pub use boxes::skip_boxes;
pub use laws::{header_read_again, header_units_known, headers_known};
pub use read::read_header;
pub use write::write_header;
pub use xs_faults::{HeadFault, HeadField};
pub use xs_params::Header;
