// Encoding: a picture becomes the bytes of a codestream.

mod analysis;
mod bands;
mod colours;
mod encoder;
mod folding;

pub use analysis::{Component, component_splitter, scale_line};
pub use bands::band_row;
pub use colours::DifferenceRows;
pub use encoder::{assemble_stream, encode_picture};
