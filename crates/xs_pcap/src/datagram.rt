// Datagrams of UDP in IPv4 in Ethernet frames.
ghost use Rattle.std.specs.Prelude.{◌≡◌, ◌+◌, ◌<◌, ◌≤◌, ◌^◌, length, map, IfSome};
ghost use Rattle.std.specs.Option.{option_map};
ghost use Rattle.xs_pcap.specs.Datagram.{after_tags, ethernet_carried, has_tag, ipv4_carried, ipv4_front, ipv4_total, is_asked, is_plain, is_whole_ipv4, is_whole_udp, payload_of, typed_ipv4, udp_length, udp_payload, without_tag};

use crate::numbers::half_word_at;

/// The two addresses of an Ethernet frame.
const ADDRESSES: usize = 12;

/// A tag of a virtual network: its type and its label.
const TAG: usize = 4;

/// The type of a tag.
const TAG_TYPE: u16 = 0x8100;

/// The type of IPv4.
const IPV4_TYPE: u16 = 0x0800;

/// The header of IPv4 without options.
const IPV4: usize = 20;

/// The number of UDP among the protocols of IPv4.
pub const UDP_PROTOCOL: u8 = 17;

/// The header of UDP.
const UDP: usize = 8;

// Whether the bytes begin with a tag.
fn has_tag(bytes: &[u8]) -> bool
    ensures { result ≡ has_tag bytes.now }
{
    bytes.len() >= TAG && half_word_at(bytes, 0) == TAG_TYPE
}

// What follows a tag, or all where there is none.
fn without_tag(bytes: &[u8]) -> &[u8]
    ensures { result.now ≡ without_tag bytes.now }
{
    if has_tag(bytes) { &bytes[TAG..] } else { bytes }
}

// What follows the type of IPv4, where that stands first.
fn typed_ipv4(bytes: &[u8]) -> Option<&[u8]>
    ensures { option_map (λ carried. carried.now) result ≡ typed_ipv4 bytes.now }
{
    if bytes.len() < 2 || half_word_at(bytes, 0) != IPV4_TYPE {
        return None;
    }
    Some(&bytes[2..])
}

// What follows the addresses and at most two tags.
fn after_tags(frame: &[u8]) -> &[u8]
    requires { 12 ≤ length frame.now }
    ensures { result.now ≡ after_tags frame.now }
{
    without_tag(without_tag(&frame[ADDRESSES..]))
}

// Classic pcap files: the content of an Ethernet frame of IPv4.
fn ethernet_carried(frame: &[u8]) -> Option<&[u8]>
    ensures { option_map (λ carried. carried.now) result ≡ ethernet_carried frame.now }
{
    if frame.len() < ADDRESSES {
        return None;
    }
    typed_ipv4(after_tags(frame))
}

// Whether a header has version 4 and UDP and is of no fragment: all but the two highest bits of its flags and offset are 0.
fn is_plain(packet: &[u8]) -> bool
    requires { 20 ≤ length packet.now }
    ensures { result ≡ is_plain packet.now }
{
    packet[0] / 16 == 4 && packet[9] == UDP_PROTOCOL && half_word_at(packet, 6) % 0x4000 == 0
}

// Where the header of a packet ends, and where the packet does, by its total length.
fn ipv4_places(packet: &[u8]) -> (usize, usize)
    requires { 20 ≤ length packet.now }
    ensures front { result.0 ≡ ipv4_front packet.now }
    ensures total { result.1 ≡ ipv4_total packet.now }
{
    let words = usize::from(packet[0] % 16);
    (4 * words, usize::from(half_word_at(packet, 2)))
}

// Classic pcap files: the content of an IPv4 packet of UDP, whose total length is within the bytes.
fn ipv4_carried(packet: &[u8]) -> Option<&[u8]>
    ensures { option_map (λ carried. carried.now) result ≡ ipv4_carried packet.now }
{
    if packet.len() < IPV4 || !is_plain(packet) {
        return None;
    }
    let (front, total) = ipv4_places(packet);
    if front < IPV4 || total < front || packet.len() < total {
        return None;
    }
    Some(&packet[front..total])
}

// Whether a datagram goes to the port that is asked for, or any is.
fn is_asked(datagram: &[u8], port: u16) -> bool
    requires { 8 ≤ length datagram.now }
    ensures { result ≡ is_asked port datagram.now }
{
    port == 0 || half_word_at(datagram, 2) == port
}

// Classic pcap files: the payload of a UDP datagram to the port, by its own length.
fn udp_payload(datagram: &[u8], port: u16) -> Option<&[u8]>
    ensures payload { option_map (λ payload. payload.now) result ≡ udp_payload port datagram.now }
    ensures short { IfSome result (λ payload. length payload.now < 2 ^ 16) }
{
    if datagram.len() < UDP || !is_asked(datagram, port) {
        return None;
    }
    let length = usize::from(half_word_at(datagram, 4));
    if length < UDP || datagram.len() < length {
        return None;
    }
    Some(&datagram[UDP..length])
}

/// The payload of captured bytes that are a datagram to the port, or to any for port 0.
#[tactic(auto, unfolding(crate::specs::Datagram::payload_of))]
pub fn payload_of(captured: &[u8], port: u16) -> Option<&[u8]>
    ensures payload { option_map (λ payload. payload.now) result ≡ payload_of port captured.now }
    ensures short { IfSome result (λ payload. length payload.now < 2 ^ 16) }
{
    udp_payload(ipv4_carried(ethernet_carried(captured)?)?, port)
}
