//! Tests of settings, geometry and the signal.
#![tactic(auto)]

#[cfg(test)]
mod geometry;
#[cfg(test)]
mod params;
#[cfg(test)]
mod signal;
#[cfg(test)]
mod wave;
