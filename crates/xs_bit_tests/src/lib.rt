//! Tests of bytes, of bits, and of the counts and planes of a line.
#![tactic(auto)]

#[cfg(test)]
mod bits;
#[cfg(test)]
mod counts;
#[cfg(test)]
mod io;
#[cfg(test)]
mod planes;
