// Captures: pictures become packets, and packets pictures.
use crate::rows::holds;
use crate::sent::{arrives, is_one_of};

// The words that make the grey capture, of seven packets. Its frames begin at 0, 76, 158, 240, 322, 404 and 440.
const ENCODE: &str = "encode --width 32 --height 17 --format mono --nlx 2 --share 274 --chunk 64";

const UNCUT: &str = "encode --width 32 --height 17 --format mono --nlx 2";

const PACKED: &str = "\
| | 0 | |
| 544*128 | 0 | grey |
--form rtp | 544*128 | 0 | grey |
--workers 1 | 544*128 | 0 | grey |
--workers 16 | 544*128 | 0 | grey |
| 1088*128 | 0 | grey grey.1 |
| 544*128 ^34 | 0 | grey grey.1 grey.2 grey.3 grey.4 grey.5 grey.6 grey.7 grey.8 grey.9 grey.10 grey.11 grey.12 grey.13 \
  grey.14 grey.15 grey.16 grey.17 grey.18 grey.19 grey.20 grey.21 grey.22 grey.23 grey.24 grey.25 grey.26 grey.27 grey.28 \
  grey.29 grey.30 grey.31 grey.32 grey.33 |
--fill 1 | 544*128 | 0 | grey 30=2 31=96 <440 \
  x0050_80600006000000000000_0001c0000800 xff20000400010001050000a080 x000000000080 x000000000080 x000000000080 33*0 \
  x0050_80600007000000000000_0001c0000801 64*0 x0050_80600008000000000000_0001c0000802 64*0 \
  x0050_80600009000000000000_0001c0000803 64*0 x0024_80e0000a000000000000_0001e0000804 18*0 xff11 |
--pt 127 --ssrc 4294967295 --time 7 --step 4194304 | 544*128 | 0 | #491 |
| 545*128 | 3 | grey | input cut 545
| 543*128 | 3 | | input cut 543
| 544*128 @ 0 | 7 | | read fault
| 1088*128 @ 1 | 7 | grey | read fault
| 544*128 @ @ 0 | 8 | |
| 544*128 @ @ 1 | 8 | 0 |
| 544*128 @ @ 2 | 8 | 0 1 |
| 544*128 @ @ 3 | 8 | 0 1 2 |
| 544*128 @ @ 4 | 8 | 0 1 2 3 |
| 544*128 @ @ 5 | 8 | 0 1 2 3 4 |
| 544*128 @ @ 6 | 8 | 0 1 2 3 4 5 |
| 1088*128 @ @ 9 | 8 | grey 0.1 1.1 |
| 544*128 @ @ 7 | 0 | grey |";

#[test]
fn pictures_are_packed(rt: HostRuntime) {
    for row in PACKED.split('\n') {
        assert!(rt; holds(&rt, rt.alloc(), ENCODE, row), "{row}");
    }
}

const DECODE: &str = "decode";

// Another share, and other pieces: each unit a packet, or two pictures of pieces of 100 bytes.
const CUT: &str = "\
--share 273 --chunk 64 | 544*128 | 4 | | budget picture 0 slice 0 size 274 share 273
--share 274 | 544*128 | 0 | #419 |
--share 274 --chunk 273 | 544*128 | 0 | #437 |
--share 274 --chunk 274 | 544*128 | 0 | #419 |
--share 274 --chunk 100 | 1088*128 | 0 | #910 |";

// A slice of 4500 bytes, and its end, in 71 packets.
const FILLED: &str =
    "encode --width 32 --height 4 --format mono --nlx 1 --nly 0 --quant deadzone --share 4500 --chunk 64 --fill 1";

#[test]
fn units_are_cut_into_pieces(rt: HostRuntime) {
    for row in CUT.split('\n') {
        assert!(rt; holds(&rt, rt.alloc(), UNCUT, row), "{row}");
    }
    assert!(rt; holds(&rt, rt.alloc(), FILLED, "| 128*0 | 0 | #5846 |"));
}

// In any order and as often as one likes; lost; among frames that are no offers; with boxes before the header.
const RECEIVED: &str = "\
| | 0 | |
| grey | 0 | 544*128 |
--form rtp | grey | 0 | 544*128 |
--workers 1 --feeders 1 | grey | 0 | 544*128 |
--workers 2 --feeders 1 | grey | 0 | 544*128 |
--workers 16 --feeders 8 | grey | 0 | 544*128 |
--feeders 3 --workers 4 | 6 6 5 5 4 4 3 3 2 2 1 1 0 0 | 0 | 544*128 |
| 1 2 3 4 5 6 0 | 0 | 544*128 |
| 0 2 4 6 1 3 5 | 0 | 544*128 |
| 0 2 4 6 0 1 2 3 4 5 6 | 0 | 544*128 |
| 3.1 0 6 2.1 5 6.1 1 4.1 0.1 2 5.1 4 1.1 3 | 0 | 1088*128 |
| grey grey.1 grey.2 ^2 | 0 | 1632*128 |
| grey 14=103 15=255 | 0 | 544*128 |
| grey 3=224 5=9 13=9 | 0 | 544*128 |
| 1 2 3 4 5 6 | 5 | | missing picture 0 header
| 0 | 5 | | missing picture 0 slice 0; missing picture 0 slice 1
| 0 2 3 4 5 | 5 | | missing picture 0 slice 0; missing picture 0 slice 1
| 0 1 2 3 4 6 | 5 | | missing picture 0 slice 0
| 0 1 2 3 4 5 ^2 | 5 | | missing picture 0 slice 1
| 0 2 4 6 | 5 | | missing picture 0 slice 0
| 6 6.2 0.1 grey.3 | 5 | 544*128 | missing picture 0 header; missing picture 1500 slice 0; \
  missing picture 1500 slice 1; missing picture 3000 header
| crowd.3 | 5 | | missing picture 0 slice 0; missing picture 0 slice 1; missing picture 1500 slice 0; missing picture 1500 slice 1; \
  missing picture 3000 slice 0; missing picture 3000 slice 1
| crowd.257 | 3 | | input pictures 257
| grey x000b80 10*0 | 0 | 544*128 | stepped 1
| grey x000b80 10*0 x000c40 11*0 x000da0 12*0 x000c90 11*0 | 0 | 544*128 | stepped 4
| x0000 grey x000f80 14*0 | 0 | 544*128 | stepped 2
| grey 0.1 505=160 | 0 | 544*128 | stepped 1
| grey 0.1 505=232 | 0 | 544*128 | stepped 1
| grey 0.1 507=250 | 0 | 544*128 | stepped 1
| grey 0.1 505=160 6.2 | 5 | 544*128 | stepped 1; missing picture 3000 header
| x0000 | 0 | | stepped 1
| 0 1=86 18+0000000c0000000000000000 1 2 3 4 5 6 | 0 | 544*128 |
| 0 1=86 18+000000070000000000000000 1 2 3 4 5 6 | 6 | | damaged picture 0 header box 7 0
| grey <490 | 3 | | input cut 440
| grey <441 | 3 | | input cut 440
| grey 1*0 | 3 | | input cut 491
| grey @ 0 | 7 | | read fault
| grey @ 1 | 7 | | read fault
| grey @ @ 0 | 8 | |
| grey grey.1 @ @ 1 | 8 | 544*128 |
| grey x0000 @ @ @ 0 | 8 | |
| 0 2 3 4 5 @ @ @ 0 | 8 | |
| 0 2 3 4 5 @ @ @ 1 | 8 | | missing picture 0 slice 0
| grey 0.1 @ @ @ 1 | 8 | 544*128 | missing picture 1500 slice 0";

#[test]
fn pictures_are_received_or_missing(rt: HostRuntime) {
    for row in RECEIVED.split('\n') {
        assert!(rt; holds(&rt, rt.alloc(), DECODE, row), "{row}");
    }
}

// The payload header of a frame is 14 bytes behind its place. A unit that ends before its slice, is empty, goes on after it or
// after its end marker; a header that is cut, goes on, or states another length; and what comes first of two pictures.
const DAMAGED: &str = "\
| grey 254=224 | 6 | | damaged picture 0 slice 0 precinct 2 truncated
| grey 441=47 <489 | 6 | | damaged picture 0 slice 1 end
| grey 490=16 | 6 | | damaged picture 0 slice 1 end
| 0 1 2 3 4 5 6 441=50 1*0 | 6 | | damaged picture 0 slice 1 end
| 0 x0010_8060000100000000_00000001_e0000000 6 | 6 | | damaged picture 0 slice 0 short
| 0 1 2 3 4 5 405=35 1*0 6 | 6 | | damaged picture 0 slice 0 trailing 274
| 0 1=73 <75 1 2 3 4 5 6 | 6 | | damaged picture 0 header truncated 57
| 0 1=78 xff200004 1 2 3 4 5 6 | 6 | | damaged picture 0 header marker ff20 58
| grey 18=0 | 6 | | damaged picture 0 header truncated 58
| grey 21=81 | 6 | | damaged picture 0 header marker ff51 2
| grey 30=2 | 6 | | damaged picture 0 length 621 365
| grey 29=1 | 6 | | damaged picture 0 length 65901 365
| grey 30=0 31=0 | 0 | 544*128 |
| grey 97=1 | 6 | | damaged picture 0 slice 0 head
| 0 1 2 3 4 5 97=1 | 5 | | missing picture 0 slice 1
| grey 97=1 grey.1 | 6 | 544*128 | damaged picture 0 slice 0 head
| grey.1 97=1 0 | 5 | | missing picture 0 slice 0; missing picture 0 slice 1; damaged picture 1500 slice 0 head
| grey 97=1 0.1 | 6 | | damaged picture 0 slice 0 head; missing picture 1500 slice 0; missing picture 1500 slice 1
| grey 97=1 @ @ @ 0 | 8 | |";

#[test]
fn damage_of_a_picture_is_named(rt: HostRuntime) {
    for row in DAMAGED.split('\n') {
        assert!(rt; holds(&rt, rt.alloc(), DECODE, row), "{row}");
    }
}

// What is sent by one run, or by two of which the packets stand one after the other, and which of these packets arrive: all, from
// the last to the first, or those of these numbers. A picture of 71 packets in a slice; two senders that send the same.
const MONO: &str = "encode --format mono";

const SENT: &str = "\
--width 32 --height 17 --nlx 2 --share 1000 --chunk 64 | 512*128 32*136 | all | 0 | 512*128 32*136 |
--width 32 --height 17 --nlx 2 --share 1000 --chunk 64 | 512*128 32*136 | reversed reversed | 0 | 512*128 32*136 |
--width 32 --height 17 --nlx 2 --share 1000 --chunk 64 | 512*128 32*136 | 1 2 3 4 5 6 0 | 0 | 512*128 32*136 |
--width 32 --height 17 --nlx 2 --share 1000 --chunk 64 | 512*128 32*136 | 6 5 4 3 2 1 | 5 | | missing picture 0 header
--width 32 --height 17 --nlx 2 --share 1000 --chunk 64 | 512*128 32*136 & 512*128 32*136 | 0 2 4 6 8 10 12 | 0 | 512*128 32*136 |
--width 32 --height 17 --nlx 2 --share 1000 --chunk 64 | 512*128 32*136 544*9 | reversed | 0 | 512*128 32*136 544*9 |
--width 32 --height 17 --nlx 2 --share 1000 --chunk 64 --time 2147483648 --step 4194304 \
  | 512*128 32*136 544*9 | 0 2 4 6 1 3 5 | 0 | 512*128 32*136 |
--width 32 --height 4 --nlx 1 --nly 0 --quant deadzone --share 4500 --chunk 64 --fill 1 | 128*0 | all | 0 | 128*0 |
--width 32 --height 4 --nlx 1 --nly 0 --quant deadzone --share 4500 --chunk 64 --fill 1 | 128*0 | reversed | 0 | 128*0 |
--width 32 --height 4 --nlx 1 --nly 0 --quant deadzone --share 400 --chunk 64 | 128*0 128*255 ^128 | reversed | 0 | 128*0 128*255 ^128 |";

#[test]
fn what_is_sent_arrives(rt: HostRuntime) {
    for row in SENT.split('\n') {
        assert!(rt; arrives(&rt, rt.alloc(), MONO, row), "{row}");
    }
}

// Two senders that disagree in slice 1, which is the last line: either packet may be taken, and so the picture is the first one, or
// that of the first one's slice 0 and the second one's slice 1.
const RIVALS: &str = "\
--width 32 --height 17 --nlx 2 --share 1000 --chunk 64 | 512*128 32*136 & 512*128 32*120 | 0 1 2 3 4 5 6 13 | 512*128 32*136 | \
  416*128 32*126 32*124 32*122 32*128";

#[test]
fn rivals_are_taken_one_by_one(rt: HostRuntime) {
    for row in RIVALS.split('\n') {
        assert!(rt; is_one_of(&rt, rt.alloc(), MONO, row), "{row}");
    }
}
