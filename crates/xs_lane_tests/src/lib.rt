//! Tests of the lane machine and of the running lanes.
#![tactic(auto)]

#[cfg(test)]
mod drops;
#[cfg(test)]
mod machine;
#[cfg(test)]
mod one_thread;
#[cfg(test)]
mod two_threads;
#[cfg(test)]
mod values;
