// Reading: a precinct's bytes become its lines of coefficients.

mod above;
mod band;
mod bits;
mod counts;
mod data;
mod packet;
mod precinct;
mod rows;

pub use above::Above;
pub use precinct::read_precinct;
