// Why a file is refused.
use std::convert::From;
use thiserror::Error;
use xs_io::Memory;

/// Why bytes are no pcap file: the first cause in the order of 'Classic pcap files'.
#[derive(Clone, Copy, Debug, Error)]
pub enum PcapFault {
    /// The bytes end inside the file header, with place 0, or inside a record; its first place.
    #[error("the file is cut")]
    Cut { place: usize },
    /// The file begins with another magic; its first four bytes as a big-endian number.
    #[error("the file has another magic")]
    Magic { value: u32 },
    /// The packets have other headers than Ethernet's; the whole field of the link type.
    #[error("the file has another link type")]
    Link { value: u32 },
    /// Memory was wanting.
    #[error("out of memory")]
    Memory,
}

impl From<Memory> for PcapFault {
    ghost use Rattle.std.specs.Prelude.{◌≡◌};
    ghost use Rattle.xs_pcap.specs.declared.fault.PcapFault.TheVariants as pcap;

    ghost from_gives = { λ _ fault. fault ≡ pcap.Memory };

    fn from(_memory: Memory) -> PcapFault {
        PcapFault::Memory
    }
}
