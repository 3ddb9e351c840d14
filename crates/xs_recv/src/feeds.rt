// The packets of the parts, and their units.
ghost use Rattle.std.specs.Prelude.{◌≡◌, ◌+◌, ◌<◌, ◌≤◌, ◌++◌, ◌∷◌, [], All, length, IfOk, OnOk};
ghost use Rattle.xs_recv.specs.Received.{offers_of_parts};
ghost use Rattle.xs_recv.specs.Filing.{AreOfUnits, fed};

use crate::activity::Feed;
use std::alloc::Global;
use xs_capture::{Packet, Parts};
use xs_io::Memory;

// The greater of a number and one more than the greatest unit.
fn units_with(packets: &[Packet], units: u32) -> u32
    requires { units ≤ 2048 }
    ensures few { result ≤ 2048 }
    ensures more { units ≤ result }
    ensures of { All (λ p. p.unit < result) packets.now }
{
    let mut most = units;
    'looking: for packet in packets {
        most = most.max(packet.unit + 1);
    }
    most
}

// Puts a feed at the end.
fn push_feed(feeds: &mut Vec<Feed>, feed: Feed) -> Result<(), Memory>
    ensures { OnOk result (feeds.new.items ≡ feeds.old.items ++ feed ∷ []) }
{
    feeds.push(feed).map_err(|_| Memory)
}

// All parts, and one more than the greatest unit in them, or 1.
pub(crate) fn feeds_of(alloc: Global, parts: Parts) -> Result<(Vec<Feed>, u32), Memory>
    requires { length parts ≤ 8 }
    ensures all { IfOk result (λ r. fed r.0.items ≡ offers_of_parts parts) }
    ensures units { IfOk result (λ r. AreOfUnits r.1 r.0.items) }
    ensures some { IfOk result (λ r. 1 ≤ r.1) }
    ensures few { IfOk result (λ r. r.1 ≤ 2048) }
{
    let mut parts = parts;
    let mut feeds = Vec::new(alloc);
    let mut units = 1;
    'parts: for at in 0..parts.len() {
        let part = parts.take(at as u32);
        units = units_with(part.as_slice(), units);
        push_feed(&mut feeds, Feed { part })?;
    }
    Ok((feeds, units))
}
