// Decoding: the bytes of a codestream become its picture.

mod coefs;
mod decoder;
mod reader;
mod rows;
mod stripes;

pub use coefs::StreamCoefs;
pub use decoder::{decode_coefs, decode_picture};
pub use reader::{last_slice, read_stream};
