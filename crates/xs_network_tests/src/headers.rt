// Headers of packets and payloads, byte by byte.
ghost use Rattle.std.specs.Prelude.{◌<◌};

use xs_rtp::{Pay, Rtp, RtpFault};

// A packet with every bit of its first two bytes set that may be set beside one source: padding, extension, marker. Then the
// payload type 96, sequence number 513, timestamp 1500 and source 1; a source; an extension of one word; two bytes of payload;
// and padding of two bytes.
const FULL: [u8; 28] = [
    0xb1, 0xe0, 2, 1, 0, 0, 5, 0xdc, 0, 0, 0, 1, //
    7, 7, 7, 7, //
    1, 2, 0, 1, 8, 8, 8, 8, //
    5, 6, //
    0, 2,
];

// Timestamp, sequence number, and the first place and the end of the payload.
fn read_of(bytes: &[u8]) -> Option<(u32, u16, usize, usize)> {
    match Rtp::read(bytes) {
        Ok((rtp, begin, end)) => Some((rtp.timestamp, rtp.sequence, begin, end)),
        Err(_) => None,
    }
}

// Marker, payload type and source.
fn rest_of(bytes: &[u8]) -> Option<(bool, u8, u32)> {
    match Rtp::read(bytes) {
        Ok((rtp, _, _)) => Some((rtp.marker, rtp.payload_type, rtp.ssrc)),
        Err(_) => None,
    }
}

#[test]
fn packets_are_read(rt: HostRuntime) {
    assert!(rt; read_of(&FULL) == Some((1500, 513, 24, 26)));
    assert!(rt; rest_of(&FULL) == Some((true, 96, 1)));
    assert!(rt;
        read_of(&[0x80, 0x60, 0, 7, 0, 0, 0, 9, 0, 0, 0, 1]) == Some((9, 7, 12, 12)),
        "a payload may be empty"
    );
    assert!(rt;
        read_of(&[0xa0, 0x60, 0, 7, 0, 0, 0, 9, 0, 0, 0, 1, 5, 2]) == Some((9, 7, 12, 12)),
        "or all padding"
    );
    assert!(rt;
        read_of(&[
            0x82, 0, 0, 0, 0, 0, 0, 0, 0, 0, 0, 0, 1, 1, 1, 1, 2, 2, 2, 2, 3
        ]) == Some((0, 0, 20, 21)),
        "two sources"
    );
}

// Whether bytes are refused so.
fn is_refused(bytes: &[u8], wanted: RtpFault) -> bool {
    match (Rtp::read(bytes), wanted) {
        (Err(RtpFault::Short(length)), RtpFault::Short(wanted)) => length == wanted,
        (Err(RtpFault::Version(version)), RtpFault::Version(wanted)) => version == wanted,
        (Err(RtpFault::Padding(count)), RtpFault::Padding(wanted)) => count == wanted,
        (Err(RtpFault::Extension(end)), RtpFault::Extension(wanted)) => end == wanted,
        _ => false,
    }
}

#[test]
fn packets_are_refused(rt: HostRuntime) {
    assert!(rt; is_refused(&[0x80; 11], RtpFault::Short(11)));
    assert!(rt;
        is_refused(
            &[0x40, 0, 0, 0, 0, 0, 0, 0, 0, 0, 0, 0],
            RtpFault::Version(1)
        )
    );
    assert!(rt;
        is_refused(
            &[0x81, 0, 0, 0, 0, 0, 0, 0, 0, 0, 0, 0, 1, 1, 1],
            RtpFault::Short(15)
        ),
        "a source is cut"
    );
    assert!(rt;
        is_refused(
            &[0xa0, 0, 0, 0, 0, 0, 0, 0, 0, 0, 0, 0, 0],
            RtpFault::Padding(0)
        )
    );
    assert!(rt;
        is_refused(
            &[0xb0, 0, 0, 0, 0, 0, 0, 0, 0, 0, 0, 0, 2],
            RtpFault::Padding(2)
        ),
        "before the extension"
    );
    assert!(rt;
        is_refused(
            &[0x90, 0, 0, 0, 0, 0, 0, 0, 0, 0, 0, 0],
            RtpFault::Extension(16)
        )
    );
    assert!(rt;
        is_refused(
            &[0x90, 0, 0, 0, 0, 0, 0, 0, 0, 0, 0, 0, 0, 0, 0, 1, 8],
            RtpFault::Extension(20)
        )
    );
}

// The bytes of a fixed header with these numbers.
fn written(marker: bool, sequence: u16, timestamp: u32) -> [u8; 12] {
    let rtp = Rtp {
        marker,
        payload_type: 127,
        sequence,
        timestamp,
        ssrc: 0xfeff_fffd,
    };
    rtp.write()
}

#[test]
fn packets_are_written(rt: HostRuntime) {
    assert!(rt; written(false, 258, 3) == [0x80, 0x7f, 1, 2, 0, 0, 0, 3, 0xfe, 0xff, 0xff, 0xfd]);
    assert!(rt;
        written(true, 65535, 1 << 31)
            == [
                0x80, 0xff, 0xff, 0xff, 0x80, 0, 0, 0, 0xfe, 0xff, 0xff, 0xfd
            ]
    );
}

// The bytes of a payload header of slice mode.
fn payload_header(last: bool, frame: u8, sep: u16, place: u16) -> [u8; 4]
    requires frame { frame < 32 }
    requires sep { sep < 2048 }
    requires place { place < 2048 }
{
    let pay = Pay {
        sequential: true,
        slice_mode: true,
        last,
        interlace: 0,
        frame,
        sep,
        place,
    };
    pay.write()
}

// Interlace, frame, number and place.
fn numbers_of(bytes: &[u8]) -> Option<(u8, u8, u16, u16)> {
    match Pay::read(bytes) {
        Ok(pay) => Some((pay.interlace, pay.frame, pay.sep, pay.place)),
        Err(_) => None,
    }
}

// The three single bits.
fn bits_of(bytes: &[u8]) -> Option<(bool, bool, bool)> {
    match Pay::read(bytes) {
        Ok(pay) => Some((pay.sequential, pay.slice_mode, pay.last)),
        Err(_) => None,
    }
}

#[test]
fn payload_headers_are_written_and_read(rt: HostRuntime) {
    assert!(rt; payload_header(true, 3, 2047, 0) == [0xe0, 0xff, 0xf8, 0]);
    assert!(rt; payload_header(false, 31, 1, 511) == [0xc7, 0xc0, 0x09, 0xff]);
    assert!(rt; numbers_of(&[0xe0, 0xff, 0xf8, 0]) == Some((0, 3, 2047, 0)));
    assert!(rt;
        numbers_of(&[0x18, 0x40, 0x0f, 0xff, 9]) == Some((3, 1, 1, 2047)),
        "what follows has no effect"
    );
    assert!(rt; bits_of(&[0x80, 0, 0, 0]) == Some((true, false, false)));
    assert!(rt; bits_of(&[0x7f, 0xff, 0xff, 0xff]) == Some((false, true, true)));
    assert!(rt; bits_of(&[0xe0, 0, 0]).is_none());
}
