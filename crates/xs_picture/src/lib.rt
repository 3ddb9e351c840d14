//! The one-thread codec over whole pictures: bytes are decoded exactly where they are a codestream, and to its picture.
#![tactic(auto)]

ghost use Rattle.xs_picture.specs.Faults.{FaultsAreNamed};
ghost use Rattle.xs_picture.specs.OnePicture.{OnePicture, StreamsKnown};
ghost use Rattle.xs_picture.specs.ReadAgain.{EncodedIsRead};

mod decode;
mod encode;

pub use decode::{StreamCoefs, decode_coefs, decode_picture, last_slice, read_stream};
pub use encode::{
    Component, DifferenceRows, assemble_stream, band_row, component_splitter, encode_picture,
    scale_line,
};
pub use xs_faults::{Budget, SliceRefusal, StreamFault};

/// Bytes have no fault exactly where they begin with a codestream.
pub fn streams_known()
    ensures { StreamsKnown }
{}

/// Each fault of bytes can be named: memory is wanting in none.
pub fn faults_are_named()
    ensures { FaultsAreNamed }
{}

/// An encoding is read as itself, whatever bytes follow it.
pub fn encoded_is_read()
    ensures { EncodedIsRead }
{}

/// Bytes have one picture.
pub fn one_picture()
    ensures { OnePicture }
{}
