//! Tests of the codec: headers, lines, pictures, stripes and codestreams that are decoded, and sizes at the limits.
#![tactic(auto)]

#[cfg(test)]
mod decoding;
#[cfg(test)]
mod headers;
#[cfg(test)]
mod limits;
#[cfg(test)]
mod streams;
#[cfg(test)]
mod stripe;
