// Lists of packets.
ghost use Rattle.std.specs.Prelude.{◌≡◌, ◌<◌, ◌≤◌, ◌++◌, ◌∷◌, [], length, replicate, slice_index_or, slice_set, if◌then◌else◌, is_ok, IfOk};
ghost use Rattle.xs_capture.specs.Pictures.{dealt_parts};

use crate::units::Packet;
use std::alloc::Global;
use std::marker::Model;
use std::mem;
use xs_io::Memory;

/// Lists of packets, one for each feeder. Contracts see the lists.
#[derive(Drop)]
pub struct Parts {
    lists: Vec<Vec<Packet>>,
}

impl Model for Parts {
    ghost use Rattle.std.specs.Prelude.{List};
    ghost use Rattle.xs_capture.specs.Offer.{Offer};
    ghost use Rattle.xs_capture.specs.Lists.{lists_in};

    ghost Value = { List (List Offer) };

    ghost view = { λ p. lists_in p.lists.items };
}

impl Parts {
    /// So many empty parts.
    pub fn new(alloc: Global, parts: u32) -> Result<Parts, Memory>
        requires some { 1 ≤ parts }
        requires few { parts ≤ 8 }
        ensures empty { IfOk result (λ p. p ≡ replicate parts []) }
    {
        Parts::blank(alloc, parts as usize)
    }

    // So many empty lists.
    pub(crate) fn blank(alloc: Global, count: usize) -> Result<Parts, Memory>
        ensures empty { IfOk result (λ p. p ≡ replicate count []) }
    {
        let mut lists = Vec::new(alloc);
        'making: for at in 0..count {
            if lists.push(Vec::new(alloc)).is_err() {
                return Err(Memory);
            }
        }
        Ok(Parts { lists })
    }

    /// The number of parts.
    pub fn len(&self) -> usize
        ensures count { result ≡ length self.now }
    {
        self.lists.len()
    }

    /// Appends a packet to a part. Where it is refused, the packet is given up and the parts are as before.
    pub fn add(&mut self, part: u32, packet: Packet) -> Result<(), Memory>
        requires { part < length self.old }
        ensures added { self.new ≡ (if is_ok result then slice_set self.old part (slice_index_or self.old part [] ++ packet ∷ []) else self.old) }
    {
        let list = &mut self.lists[part as usize];
        list.push(packet).map_err(|_| Memory)
    }

    /// The packets of a part, which has none afterwards.
    pub fn take(&mut self, part: u32) -> Vec<Packet>
        requires { part < length self.old }
        ensures taken { result.items ≡ slice_index_or self.old part [] }
        ensures left { self.new ≡ slice_set self.old part [] }
    {
        let list = &mut self.lists[part as usize];
        let none = Vec::new(*list.allocator());
        mem::replace(list, none)
    }

    // The packets of a part.
    pub(crate) fn list(&self, part: u32) -> &[Packet]
        requires { part < length self.now }
        ensures { result.now ≡ slice_index_or self.now part [] }
    {
        self.lists[part as usize].as_slice()
    }
}

/// Deals packets in turn: the first to part 0, the next to part 1, and so on round.
pub(crate) fn deal(alloc: Global, packets: &[Packet], parts: u32) -> Result<Parts, Memory>
    requires some { 1 ≤ parts }
    requires few { parts ≤ 8 }
    ensures dealt { IfOk result (λ dealt. dealt ≡ dealt_parts parts packets.now) }
{
    let mut dealt = Parts::new(alloc, parts)?;
    'dealing: for at in 0..packets.len() {
        let part = (at % parts as usize) as u32;
        dealt.add(part, packets[at].again()?)?;
    }
    Ok(dealt)
}
