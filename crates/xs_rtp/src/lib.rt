//! Headers of RTP packets and of their JPEG XS payloads: what is written of a header is read again, whatever follows it.
#![tactic(auto)]

mod laws;
mod numbers;
mod packet;
mod payload;

pub use laws::{
    packet_is_read, payload_header_is_spelled, payload_header_read_again, rtp_header_read_again,
};
pub use packet::{Rtp, RtpFault};
pub use payload::{Pay, PayShort};
