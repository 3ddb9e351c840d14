//! Tests of RTP packets, of captures, and of the packets of codestreams.
#![tactic(auto)]

#[cfg(test)]
mod captures;
#[cfg(test)]
mod headers;
#[cfg(test)]
mod packets;
#[cfg(test)]
mod pcap_files;
