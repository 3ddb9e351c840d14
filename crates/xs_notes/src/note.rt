// What a note says.
use xs_faults::{HeadFault, SliceFault};
use xs_params::Setting;

/// What a run says beside its output. A picture is named by its RTP timestamp where codestreams travel in packets, but for
/// `Budget`, and by its number from 0 else. A fault in a note is never want of memory.
#[derive(Clone, Copy, Debug, PartialEq, Eq)]
pub enum Note {
    /// The words are no command; the place of the first bad one, from 0.
    Words {
        place: u32,
    },
    /// A setting is refused.
    Setting(Setting),
    /// The input ends inside a picture, a codestream or a frame.
    InputCut {
        place: u64,
    },
    /// A sample has more bits than the depth; the place of its first byte in the whole input.
    InputSample {
        place: u64,
    },
    /// The input has more bytes than this.
    InputLimit {
        limit: u64,
    },
    /// There are too many pictures.
    InputPictures {
        count: u32,
    },
    /// A pcap file begins with another magic; its first four bytes as a big-endian number.
    InputMagic {
        value: u32,
    },
    /// The frames of a pcap file are not Ethernet's; the whole field of the link type.
    InputLink {
        value: u32,
    },
    /// A slice is over its share with the coarsest candidate; its bytes then.
    Budget {
        picture: u32,
        slice: u32,
        size: u64,
        share: u32,
    },
    /// The header of a picture is not whole.
    MissingHeader {
        picture: u32,
    },
    /// A slice of a picture is not whole.
    MissingSlice {
        picture: u32,
        slice: u32,
    },
    /// The header of a picture is wrong.
    DamagedHeader {
        picture: u32,
        fault: HeadFault,
    },
    /// A slice of a picture is wrong.
    DamagedSlice {
        picture: u32,
        slice: u32,
        fault: SliceFault,
    },
    /// The length that the header states is not that of the codestream.
    DamagedLength {
        picture: u32,
        stated: u32,
        actual: u32,
    },
    /// Frames that are no offers were stepped over.
    Stepped {
        count: u32,
    },
    /// The input failed.
    ReadFault,
}
