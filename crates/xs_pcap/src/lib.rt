//! Classic pcap files of Ethernet, IPv4 and UDP: what is wrapped is unwrapped to its capture, with nothing stepped over.
#![tactic(auto)]

mod datagram;
mod fault;
mod file;
mod laws;
mod numbers;
mod unwrapping;
mod wrapping;

pub use fault::PcapFault;
pub use laws::{
    checksum_is_good, datagram_is_read, no_fault_in_file, records_are_one, unwrapped_is_one,
    wrapped_is_unwrapped,
};
pub use unwrapping::{Unwrapped, unwrap};
pub use wrapping::{file_header, wrap};
