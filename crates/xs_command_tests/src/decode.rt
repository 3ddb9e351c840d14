// Codestreams read back: what is spelled otherwise and means the same, what is cut, and what is damaged.
use crate::rows::holds;
use std::test::Fail;

const DECODE: &str = "decode --form xs";

// The places in the black picture: 13 the stated length, 14 profile and level, 33 long packet headers and Rl, 44 the gain of
// the first band, 48 the slice, 54 the first precinct, 99, 137 and 175 the others, 213 the end. In the plain one, which has no
// mode, the last precinct is at 186 and the end at 230. Where an insignificant group is one of truncated counts (33=1), the lines
// after the first are grey.
const SPELLINGS: &str = "\
| | 0 | |
| black | 0 | 128*0 |
| black black | 0 | 256*0 |
| black ^256 | 0 | 32768*0 |
| plain | 0 | 128*0 |
| raw | 0 | 128*0 |
| plain raw black | 0 | 384*0 |
| black 13=0 | 0 | 128*0 |
| black 14=171 | 0 | 128*0 |
| black 17=205 | 0 | 128*0 |
| black 33=64 | 0 | 128*0 |
| black 33=1 | 0 | 32*0 96*128 |
| black 38=10 | 0 | 256*0 |
| black 59=47 | 0 | 128*0 |
| black 213+010203 177=35 13=0 6+abcd 5=4 2+ff1500040001 | 0 | 128*0 |
| header 4:000026000000001a003fff:: xff11 | 0 | 128*0 |
| header 4:00002600000f001a003800:: xff11 | 0 | 128*0 |
| header 4:00002600ff00001a003800:: xff11 | 0 | 128*0 |
| header 4:000029000000001a003800::0102ff xff11 13=244 | 0 | 128*0 |
| header 4:000027000000001a004000:a5: xff11 13=236 | 0 | 128*0 |
| header 4:000027000000001b003800::5a xff11 13=236 | 0 | 128*0 |
| header 4:0000280000000000d000038000:: xff11 33=128 13=240 | 0 | 128*0 |
| plain 44=15 | 0 | 128*0 |
| black 44=15 | 0 | 128*0 |";

#[test]
fn spellings_of_one_content_are_read_alike(rt: HostRuntime) {
    for row in SPELLINGS.split('\n') {
        assert!(rt; holds(&rt, rt.alloc(), DECODE, row), "{row}");
    }
}

// The first precinct of the wide picture has its counts from byte 66 and its data from byte 75 on. The bits up to a byte may be
// set, of the flags, of the counts, of the data and of all; and past the width the signs of zeros, and numbers of either sign.
const UNUSED: &str = "\
| wide | 0 | 132*0 |
| wide 65=255 | 0 | 132*0 |
| wide 74=7 | 0 | 132*0 |
| wide 107=15 | 0 | 132*0 |
| wide 65=129 74=5 107=10 | 0 | 132*0 |
| wide 101=248 | 0 | 132*0 |
| wide 101=143 | 0 | 132*0 |
| wide 101=255 | 0 | 132*0 |";

#[test]
fn what_is_not_used_may_be_anything(rt: HostRuntime) {
    for row in UNUSED.split('\n') {
        assert!(rt; holds(&rt, rt.alloc(), DECODE, row), "{row}");
    }
}

const DAMAGE: &str = "\
| black 1*0 | 3 | 128*0 | input cut 216
| black black <265 | 3 | 128*0 | input cut 265
| black ^257 | 3 | 32768*0 | input pictures 257
| black ^256 1*0 | 3 | 32768*0 | input pictures 257
| black 177=255 | 3 | | input cut 215
| black 0=0 | 6 | | damaged picture 0 header marker 0010 0
| black 3=81 | 6 | | damaged picture 0 header marker ff51 2
| black 9=25 | 6 | | damaged picture 0 header length ff12 25
| black 19=16 | 6 | | damaged picture 0 header unsupported wf 16
| black 21=3 | 6 | | damaged picture 0 header unsupported hf 3
| black 30=100 | 6 | | damaged picture 0 header unsupported fq 6
| black 29=18 | 6 | | damaged picture 0 header unsupported fq 8
| black 33=32 | 6 | | damaged picture 0 header unsupported qpih 2
| black 38=9 | 6 | | damaged picture 0 header unsupported bc 9
| black 34+ff1600040000 | 6 | | damaged picture 0 header segment ff16 34
| black 34+ff12001a000000d700000000002000040000000401040814840010 61+00 | 6 | | damaged picture 0 header twice ff12
| header <34 6+ff1300040811 | 6 | | damaged picture 0 header absent ff12
| header <40 xff20 | 6 | | damaged picture 0 header absent ff14
| black 53=1 | 6 | | damaged picture 0 slice 0 head
| black 56=4 | 6 | | damaged picture 0 slice 0 precinct 0 packet 0 overrun head
| black 56=5 | 6 | | damaged picture 0 slice 0 precinct 0 packet 0 overrun significance
| black 56=12 | 6 | | damaged picture 0 slice 0 precinct 0 packet 0 overrun counts
| black 56=38 | 6 | | damaged picture 0 slice 0 precinct 0 packet 0 overrun data
| black 101=31 | 6 | | damaged picture 0 slice 0 precinct 1 packet 0 overrun data
| black 213=0 | 6 | | damaged picture 0 slice 0 end
| black 214=16 | 6 | | damaged picture 0 slice 0 end
| black 214=16 1*0 | 6 | | damaged picture 0 slice 0 end
| black 13=216 | 6 | | damaged picture 0 length 216 215
| black 13=216 1*0 | 6 | | damaged picture 0 length 216 215
| black black 268=1 | 6 | 128*0 | damaged picture 1 slice 0 head
| black black 228=0 | 0 | 256*0 |
| black black 228=1 | 6 | 128*0 | damaged picture 1 length 1 215
| plain 59=32 | 6 | | damaged picture 0 slice 0 precinct 0 packet 0 overrun data
| plain 60=128 | 6 | | damaged picture 0 slice 0 precinct 0 packet 0 overrun data
| plain 61=25 | 6 | | damaged picture 0 slice 0 precinct 0 packet 0 overrun data
| plain 61=27 | 6 | | damaged picture 0 slice 0 precinct 0 packet 0 overrun data
| plain 63=48 | 6 | | damaged picture 0 slice 0 precinct 0 packet 0 overrun counts
| plain 66=255 | 6 | | damaged picture 0 slice 0 precinct 0 packet 0 count 25
| plain 65=255 66=255 67=123 | 6 | | damaged picture 0 slice 0 precinct 0 packet 0 count 16
| black @ 0 | 7 | | read fault
| black @ 1 | 7 | | read fault
| black @ 2 | 0 | 128*0 |
| black @ @ 0 | 8 | |
| black black @ @ 1 | 8 | 128*0 |
| black 0=0 @ @ @ 0 | 8 | |
| black 1*0 @ @ @ 0 | 8 | 128*0 |
| @ 0 | 7 | | read fault
| @ 0 @ @ 0 | 8 | |";

#[test]
fn damage_is_named(rt: HostRuntime) {
    for row in DAMAGE.split('\n') {
        assert!(rt; holds(&rt, rt.alloc(), DECODE, row), "{row}");
    }
}

// Precinct 1 of the deep picture begins at byte 131, and precinct 4, which is in slice 1 and has three packets, at 338: a header
// of seven bytes, and packets of six, of which the last is the flags. Raw counts in packets 0, 1 and 9 of precinct 1, and in the
// last of precinct 4; a band without its mode; counts of no bytes; more counts than there are; data where none is left.
const DEEP_DAMAGE: &str = "\
| deep | 0 | 544*128 |
| deep 138=128 | 6 | | damaged picture 0 slice 0 precinct 1 packet 0 overrun counts
| deep 144=128 | 6 | | damaged picture 0 slice 0 precinct 1 packet 1 overrun counts
| deep 192=128 | 6 | | damaged picture 0 slice 0 precinct 1 packet 9 overrun counts
| deep 357=128 | 6 | | damaged picture 0 slice 1 precinct 4 packet 2 overrun counts
| deep 136=42 | 6 | | damaged picture 0 slice 0 precinct 1 packet 0 overrun counts
| deep 149=0 | 6 | | damaged picture 0 slice 0 precinct 1 packet 1 overrun counts
| deep 197=0 | 6 | | damaged picture 0 slice 0 precinct 1 packet 9 overrun counts
| deep 195=16 | 6 | | damaged picture 0 slice 0 precinct 1 packet 9 overrun counts
| deep 194=8 | 6 | | damaged picture 0 slice 0 precinct 1 packet 9 overrun counts
| deep 193=1 | 6 | | damaged picture 0 slice 0 precinct 1 packet 9 overrun data
| deep 364=16 | 6 | | damaged picture 0 slice 1 end
| deep 337=2 | 6 | | damaged picture 0 slice 1 head";

#[test]
fn damage_in_a_later_packet_is_named(rt: HostRuntime) {
    for row in DEEP_DAMAGE.split('\n') {
        assert!(rt; holds(&rt, rt.alloc(), DECODE, row), "{row}");
    }
}

#[test]
fn every_cut_is_named(rt: HostRuntime) -> Result<(), Fail> {
    for size in 1..215 {
        let row = format!(in rt.alloc(); "| black <{size} | 3 | | input cut {size}")?;
        assert!(rt; holds(&rt, rt.alloc(), DECODE, row.as_str()), "{row}");
    }
    Ok(())
}

// Each of the four precincts of the plain picture has five million bytes of filler, and the length is not stated.
const LONG: &str = "\
| header 1:4c4b66000000001a003800:: 5000000*7 1:4c4b66000000001a003800:: 5000000*7 \
  1:4c4b66000000001a003800:: 5000000*7 1:4c4b66000000001a003800:: 5000000*7 xff11 13=0 | 0 | 128*0 |";

#[test]
fn a_codestream_of_more_than_16_megabytes(rt: HostRuntime) {
    assert!(rt; holds(&rt, rt.alloc(), DECODE, LONG));
}
