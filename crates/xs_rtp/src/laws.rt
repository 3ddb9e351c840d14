// Laws of the two headers.
ghost use Rattle.xs_rtp.specs.Laws.{PacketIsRead, PayloadHeaderIsSpelled, PayloadHeaderReadAgain, RtpHeaderReadAgain};

/// The bits of a payload header are the fields that are read from it.
#[tactic(auto, using(crate::proofs::Spelled::payload_header))]
pub fn payload_header_is_spelled()
    ensures { PayloadHeaderIsSpelled }
{}

/// What is written of a payload header is read again, whatever follows it.
#[tactic(auto, using(crate::proofs::Again::payload_header))]
pub fn payload_header_read_again()
    ensures { PayloadHeaderReadAgain }
{}

/// What is written of a fixed header is read again, whatever payload follows it.
#[tactic(auto, using(crate::proofs::Again::rtp_header))]
pub fn rtp_header_read_again()
    ensures { RtpHeaderReadAgain }
{}

/// Bytes are read as a packet exactly where they are one.
#[tactic(auto, using(crate::proofs::Whole::packet_is_read))]
pub fn packet_is_read()
    ensures { PacketIsRead }
{}
