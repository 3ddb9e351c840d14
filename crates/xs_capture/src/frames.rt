// Frames: packets after their lengths.
ghost use Rattle.std.specs.Prelude.{◌≡◌, ◌<◌, ◌≤◌, ◌+◌, ◌++◌, length, if◌then◌else◌, is_ok, IfOk};
ghost use Rattle.xs_capture.specs.Capture.{frame, frame_end, frame_read, IsShort};

use std::alloc::Global;
use thiserror::Error;
use xs_io::{Memory, Octets};

/// Why no whole frame stands at a place.
#[derive(Clone, Copy, Debug, Error)]
pub enum FrameFault {
    /// The bytes end inside the frame; its first place.
    #[error("a frame is cut")]
    Cut { place: usize },
}

// The length that a frame states of its packet.
fn stated_length(bytes: &[u8], place: usize) -> usize
    requires { place + 2 ≤ length bytes.now }
    ensures { place + 2 + result ≡ frame_end bytes.now place }
{
    usize::from(u16::from_be_bytes([bytes[place], bytes[place + 1]]))
}

/// The first place and the end of the packet whose frame begins at a place, 'RTP packets and captures'.
pub fn read_frame(bytes: &[u8], place: usize) -> Result<(usize, usize), FrameFault>
    requires { place < length bytes.now }
    ensures read { result ≡ frame_read bytes.now place }
    ensures inside { IfOk result (λ read. (read.0 ≡ place + 2) × (read.0 ≤ read.1) × (read.1 ≤ length bytes.now)) }
{
    if bytes.len() - place < 2 {
        return Err(FrameFault::Cut { place });
    }
    let first = place + 2;
    let length = stated_length(bytes, place);
    if bytes.len() - first < length {
        return Err(FrameFault::Cut { place });
    }
    Ok((first, first + length))
}

/// Appends a packet after its length, which must have room in 16 bits. Where it is refused, the list is as before.
pub fn write_frame(_alloc: Global, out: &mut Octets, packet: &[u8]) -> Result<(), Memory>
    requires { IsShort packet.now }
    ensures appended { out.new ≡ (if is_ok result then out.old ++ frame packet.now else out.old) }
{
    let before = out.len();
    out.extend(&(packet.len() as u16).to_be_bytes())?;
    if out.extend(packet).is_err() {
        out.truncate(before);
        return Err(Memory);
    }
    Ok(())
}
