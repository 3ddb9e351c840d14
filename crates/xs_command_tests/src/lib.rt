//! Tests of the commands: what a run writes, says and answers.
#![tactic(auto)]

#[cfg(test)]
mod bytes;
#[cfg(test)]
mod decode;
#[cfg(test)]
mod encode;
#[cfg(test)]
mod ends;
#[cfg(test)]
mod pcap;
#[cfg(test)]
mod pictures;
#[cfg(test)]
mod rows;
#[cfg(test)]
mod rtp;
#[cfg(test)]
mod sent;
#[cfg(test)]
mod threads;
#[cfg(test)]
mod trial;
#[cfg(test)]
mod words;
