// Files that are read.
ghost use Rattle.std.specs.Prelude.{◌≡◌, ◌+◌, ◌++◌, ◌<◌, ◌^◌, length, OnOk, MatchResult, IfSome};
ghost use Rattle.std.specs.Option.{option_map};
ghost use Rattle.xs_pcap.specs.Unwrapped.{frame_if, IsPcapFault, IsUnwrapped, step_if};

use crate::datagram::payload_of;
use crate::fault::PcapFault;
use crate::file::{HEADER, read_header, read_record};
use std::alloc::Global;
use xs_capture::write_frame;
use xs_io::{Memory, Octets};

/// What a file is unwrapped to: the payloads of its datagrams as a capture, in order, and the number of the other records.
#[derive(Drop)]
pub struct Unwrapped {
    pub capture: Octets,
    pub stepped: u32,
}

impl Unwrapped {
    // One record more.
    fn add(&mut self, alloc: Global, payload: Option<&[u8]>) -> Result<(), Memory>
        requires few { self.old.stepped < 2 ^ 31 }
        requires short { IfSome payload (λ p. length p.now < 2 ^ 16) }
        ensures capture { OnOk result (self.new.capture ≡ self.old.capture ++ frame_if (option_map (λ p. p.now) payload.entry)) }
        ensures stepped { OnOk result (self.new.stepped ≡ self.old.stepped + step_if (option_map (λ p. p.now) payload.entry)) }
    {
        match payload {
            Some(payload) => write_frame(alloc, &mut self.capture, payload)?,
            None => self.stepped += 1,
        }
        Ok(())
    }
}

/// Unwraps the datagrams of a file that go to a port, or to any for port 0. Checksums have no effect.
pub fn unwrap(alloc: Global, bytes: &[u8], port: u16) -> Result<Unwrapped, PcapFault>
    requires { length bytes.now < 2 ^ 32 }
    ensures unwrapped { MatchResult result (IsUnwrapped bytes.now port) (IsPcapFault bytes.now) }
{
    let order = read_header(bytes)?;
    let mut unwrapped = Unwrapped {
        capture: Octets::new(alloc),
        stepped: 0,
    };
    let mut place = HEADER;
    'unwrapping: while place < bytes.len() {
        let (first, end) = read_record(order, bytes, place)?;
        unwrapped.add(alloc, payload_of(&bytes[first..end], port))?;
        place = end;
    }
    Ok(unwrapped)
}
