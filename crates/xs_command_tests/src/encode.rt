// What is answered to pictures that are encoded.
use crate::rows::holds;

// The first words of most rows: a picture of one level across.
const FLAT: &str = "encode --form xs --format mono --quant deadzone --nlx 1 --nly 0";

// The same of 32 by 4 samples.
const SMALL: &str =
    "encode --form xs --format mono --quant deadzone --nlx 1 --nly 0 --width 32 --height 4";

// In candidate (1, 0), which is chosen below 165 bytes, each group has a plane less.
const PICTURES: &str = "\
--width 32 --height 4 --share 400 | 128*0 | 0 | black |
--width 0000000032 --height 4 --share 400 | 128*0 | 0 | black |
--share 400 --slice 65535 --height 4 --width 32 | 128*0 | 0 | black 24=255 25=255 |
--width 32 --height 4 --share 716798 | 128*0 | 0 | black |
--width 33 --height 4 --share 400 --slice 2 | 132*0 | 0 | wide |
--width 8192 --height 4 --share 89598 | 32768*0 | 0 | #28500 |
--width 32 --height 8192 --share 400 --slice 5 | 262144*0 | 0 | #332653 |
--width 32 --height 4 --share 165 | 128*0 | 0 | black |
--width 32 --height 4 --share 164 | 128*0 | 0 | header 13=206 \
  x0000240100200018003000_80_ffeffeffeffe xff0000000000ff0000000000ff0000000000ff0000000000 \
  x00001e0100e00018000000_c0 xff0000000000ff0000000000ff0000000000ff0000000000 \
  x00001e0100e00018000000_c0 xff0000000000ff0000000000ff0000000000ff0000000000 \
  x00001e0100e00018000000_c0 xff0000000000ff0000000000ff0000000000ff0000000000 xff11 |
--width 32 --height 4 --share 156 | 128*0 | 0 | #206 |
--width 32 --height 4 --share 155 | 128*0 | 0 | #198 |
--width 32 --height 4 --share 64 | 128*0 | 0 | #104 |
--width 32 --height 8 --share 165 | 128*128 128*0 | 0 | #269 |
--width 32 --height 8 --share 64 | 128*128 128*0 | 0 | #158 |
--width 32 --height 5 --share 66 --slice 5 | 160*0 | 0 | #116 |
--width 32 --height 5 --share 65 --slice 5 | 160*0 | 4 | | budget picture 0 slice 0 size 66 share 65
--width 32 --height 10 --share 65 --slice 5 | 160*128 320*0 | 4 | | budget picture 0 slice 0 size 66 share 65
--width 32 --height 5 --share 65 --slice 5 | 160*0 @ @ @ 0 | 8 | |";

#[test]
fn pictures_are_encoded_or_refused(rt: HostRuntime) {
    for row in PICTURES.split('\n') {
        assert!(rt; holds(&rt, rt.alloc(), FLAT, row), "{row}");
    }
}

// Pictures one after the other: none, some, the most, and one too many; the input that ends inside one, the input and the output
// that fail at one, and samples that have more bits than the depth.
const MANY: &str = "\
--share 400 | | 0 | |
--share 400 | 127*0 | 3 | | input cut 127
--share 400 | 129*0 | 3 | black | input cut 129
--share 400 | 256*0 | 0 | black black |
--share 400 | 257*0 | 3 | black black | input cut 257
--share 400 | 32768*0 | 0 | black ^256 |
--share 400 | 32769*0 | 3 | black ^256 | input pictures 257
--share 400 | 32896*0 | 3 | black ^256 | input pictures 257
--share 400 | 256*0 @ 0 | 7 | | read fault
--share 400 | 256*0 @ 1 | 7 | black | read fault
--share 400 | 256*0 @ 2 | 7 | black black | read fault
--share 400 | 256*0 @ 3 | 0 | black black |
--share 400 | 200*0 @ 2 | 7 | black | read fault
--share 400 | 256*0 @ @ 0 | 8 | |
--share 400 | 256*0 @ @ 1 | 8 | black |
--share 400 | 256*0 @ @ 2 | 0 | black black |
--share 400 | 257*0 @ @ @ 0 | 8 | black black |
--share 400 | 256*0 @ 1 @ @ 0 | 8 | black |
--share 400 --depth 10 | 512*0 | 0 | black 38=10 ^2 |
--share 400 --depth 10 | 512*0 267=4 | 3 | black 38=10 | input sample 266
--share 400 --depth 10 | 512*0 267=255 511=255 | 3 | black 38=10 | input sample 266
--share 400 --depth 10 | 512*0 1=4 | 3 | | input sample 0
--share 400 --depth 10 | 511*0 257=4 | 3 | black 38=10 | input cut 511
--share 400 --depth 12 | 512*0 511=16 | 3 | black 38=12 | input sample 510
--share 4000 --depth 12 | 1*255 1*15 ^128 | 0 | #206 |
--share 164 | 128*128 128*0 | 0 | #310 |";

#[test]
fn pictures_come_one_after_the_other(rt: HostRuntime) {
    for row in MANY.split('\n') {
        assert!(rt; holds(&rt, rt.alloc(), SMALL, row), "{row}");
    }
}

// The same of any format.
const FLATTER: &str = "encode --form xs --nlx 1 --nly 0 --width 32 --height 4";

// Formats, the other quantiser, signs apart, bits inside, and slices that are filled up to 400 bytes: the last precinct has 235
// bytes more.
const CHOICES: &str = "\
--share 400 --signs in --bits 20 --fill 0 --colour 0 --depth 8 --quant deadzone --format mono | 128*0 | 0 | black |
--share 400 --quant uniform --format mono | 128*0 | 0 | black 33=16 |
--share 400 --bits 18 --quant deadzone --format mono | 128*0 | 0 | black 29=18 30=100 |
--share 400 --fill 1 --quant deadzone --format mono | 128*0 | 0 | black 12=1 13=194 176=1 177=11 <213 235*0 xff11 |
--share 165 --fill 1 --quant deadzone --format mono | 128*0 | 0 | black |
--share 400 --signs apart --quant deadzone --format mono | 128*0 | 0 | header 13=215 33=4 \
  x000027000020001800380280fff7ffbffdffe0 xf00000000000f00000000000f00000000000f00000000000ffff \
  x0000200000e00018000002c0 xf00000000000f00000000000f00000000000f00000000000ffff \
  x0000200000e00018000002c0 xf00000000000f00000000000f00000000000f00000000000ffff \
  x0000200000e00018000002c0 xf00000000000f00000000000f00000000000f00000000000ffff xff11 |
--share 400 --format 422 | 256*128 | 0 | xff10ff500002ff12001a0000007800000000002000040000000403040814840010\
  10ff130008081108210821ff14000e000000010002000300040005ff20000400000000060000aaa00000000000fc0000060000aa\
  a00000000000fc0000060000aaa00000000000fc0000060000aaa00000000000fcff11 |
--share 400 --format 444 | 384*128 | 0 | xff10ff500002ff12001a0000007800000000002000040000000403040814840010\
  10ff130008081108110811ff14000e000000010002000300040005ff20000400000000060000aaa00000000000fc0000060000aa\
  a00000000000fc0000060000aaa00000000000fc0000060000aaa00000000000fcff11 |
--share 400 --format 444 --colour 1 | 384*128 | 0 | xff10ff500002ff12001a00000078000000000020000400000004030408148401\
  1010ff130008081108110811ff14000e000000010002000300040005ff20000400000000060000aaa00000000000fc0000060000aa\
  a00000000000fc0000060000aaa00000000000fc0000060000aaa00000000000fcff11 |
--share 400 | 255*128 | 3 | | input cut 255
--share 400 --depth 10 --format 444 | 768*0 767=4 | 3 | | input sample 766
--share 400 --colour 1 | 256*128 | 2 | | setting colour 1
--share 400 --colour 1 --format mono | 256*128 | 2 | | setting colour 1
--share 400 --bits 19 | 256*128 | 2 | | setting bits 19";

#[test]
fn choices_are_followed(rt: HostRuntime) {
    for row in CHOICES.split('\n') {
        assert!(rt; holds(&rt, rt.alloc(), FLATTER, row), "{row}");
    }
}

// Stripes of three components, whose fields are too small for what is coded until the candidate (2, 0).
const STRIPES: &str = "\
--width 8192 --height 4 --format 444 --chunk 8192 --share 200000 --nlx 1 --nly 0 | 1*0 1*128 ^49152 | 0 | #137492 |";

#[test]
fn fields_are_great_enough(rt: HostRuntime) {
    assert!(rt; holds(&rt, rt.alloc(), "encode --form xs", STRIPES));
}

// And those of every depth.
const ANY_DEPTH: &str = "encode --form xs --format mono";

// Grey pictures have no data: a packet is its header of five bytes, and a flag for each band.
const DEEP_PICTURES: &str = "\
--nlx 2 --nly 2 --width 32 --height 17 --share 274 | 544*128 | 0 | deep |
--nlx 2 --width 32 --height 17 --share 274 | 544*128 | 0 | deep |
--nlx 2 --nly 2 --width 32 --height 17 --share 273 | 544*128 | 4 | | budget picture 0 slice 0 size 274 share 273
--nlx 2 --nly 2 --width 32 --height 17 --share 273 | 544*255 | 4 | | budget picture 0 slice 0 size 274 share 273
--nlx 2 --nly 2 --width 32 --height 17 --share 273 | 1088*128 | 4 | | budget picture 0 slice 0 size 274 share 273
--nlx 2 --nly 2 --width 32 --height 17 --share 274 --fill 1 | 544*128 | 0 | deep 12=2 13=96 339=1 340=5 <363 243*0 xff11 |
--nlx 5 --nly 2 --width 32 --height 4 --share 74 | 128*128 | 0 | #140 |
--nlx 5 --nly 2 --width 32 --height 4 --share 73 | 128*128 | 4 | | budget picture 0 slice 0 size 74 share 73
--nlx 5 --nly 0 --width 32 --height 4 --share 64 | 128*128 | 0 | #120 |
--nlx 1 --nly 1 --width 32 --height 4 --share 400 | 128*128 | 0 | #120 |";

#[test]
fn every_depth_is_encoded_or_refused(rt: HostRuntime) {
    for row in DEEP_PICTURES.split('\n') {
        assert!(rt; holds(&rt, rt.alloc(), ANY_DEPTH, row), "{row}");
    }
}
