// What is answered to words that are no command, and to settings that are out of range.
use crate::rows::holds;

const SMALL: &str =
    "encode --form xs --format mono --quant deadzone --nlx 1 --nly 0 --width 32 --height 4 --share 400";

// Each number in turn, and what is refused first where two are out of range.
const SETTINGS: &str = "\
--depth 9 | 128*0 | 2 | | setting depth 9
--depth 9 | 128*0 @ 0 @ 0 | 2 | | setting depth 9
--depth 9 | 128*0 @ @ @ 0 | 8 | |
--depth 264 | 128*0 | 2 | | setting depth 264
--bits 19 | 128*0 | 2 | | setting bits 19
--bits 276 | 128*0 | 2 | | setting bits 276
--slice 0 | 128*0 | 2 | | setting slice 0
--slice 65536 | 128*0 | 2 | | setting slice 65536
--slice 65540 | 128*0 | 2 | | setting slice 65540
--colour 1 | 128*0 | 2 | | setting colour 1
--chunk 63 | 128*0 | 2 | | setting chunk 63
--chunk 8193 | 128*0 | 2 | | setting chunk 8193
--pt 95 | 128*0 | 2 | | setting pt 95
--pt 128 | 128*0 | 2 | | setting pt 128
--pt 352 | 128*0 | 2 | | setting pt 352
--time 2147483649 | 128*0 | 2 | | setting time 2147483649
--step 0 | 128*0 | 2 | | setting step 0
--step 4194305 | 128*0 | 2 | | setting step 4194305
--workers 0 | 128*0 | 2 | | setting workers 0
--workers 17 | 128*0 | 2 | | setting workers 17
--workers 260 | 128*0 | 2 | | setting workers 260
--port 0 | 128*0 | 2 | | setting port 0
--port 65536 | 128*0 | 2 | | setting port 65536
--port 0 --workers 17 | 128*0 | 2 | | setting workers 17
--port 65535 | 128*0 | 0 | black |
--pt 352 --depth 9 | 128*0 | 2 | | setting depth 9
--workers 0 --step 0 --time 2147483649 --pt 95 --chunk 63 --colour 1 --slice 0 --bits 19 | 128*0 | 2 | | setting bits 19
--workers 0 --step 0 --time 2147483649 --pt 95 --chunk 63 --colour 1 --slice 0 | 128*0 | 2 | | setting slice 0
--workers 0 --step 0 --time 2147483649 --pt 95 --chunk 63 --colour 1 | 128*0 | 2 | | setting colour 1
--workers 0 --step 0 --time 2147483649 --pt 95 --chunk 63 | 128*0 | 2 | | setting chunk 63
--workers 0 --step 0 --time 2147483649 --pt 95 | 128*0 | 2 | | setting pt 95
--workers 0 --step 0 --time 2147483649 | 128*0 | 2 | | setting time 2147483649
--workers 0 --step 0 | 128*0 | 2 | | setting step 0
--pt 127 --time 2147483648 --step 4194304 --workers 16 --ssrc 4294967295 --chunk 8192 | 128*0 | 0 | black |";

#[test]
fn settings_out_of_range_are_named(rt: HostRuntime) {
    for row in SETTINGS.split('\n') {
        assert!(rt; holds(&rt, rt.alloc(), SMALL, row), "{row}");
    }
}

// Sizes, levels and shares, which hang together; and the numbers of threads of `decode`.
const SIZES: &str = "\
encode --width 31 --height 4 --share 400 | | 2 | | setting width 31
encode --width 62 --height 4 --share 400 | | 2 | | setting nlx 5
encode --width 63 --height 4 --share 400 | | 0 | |
encode --width 8193 --height 4 --share 400 --format mono | | 2 | | setting width 8193
encode --width 8192 --height 4 --share 400 --format mono | | 0 | |
encode --width 8192 --height 4 --share 400 --format 444 | | 0 | |
encode --width 32 --height 3 --share 63 --nlx 300 | | 2 | | setting height 3
encode --width 32 --height 8193 --share 400 --format mono | | 2 | | setting height 8193
encode --width 8192 --height 2048 --share 400 --format mono | | 0 | |
encode --width 8192 --height 2049 --share 400 --format mono | | 2 | | setting height 2049
encode --width 32 --height 8192 --share 400 --format mono --nly 0 | | 2 | | setting slice 4
encode --width 32 --height 8188 --share 400 --format mono --nly 0 | | 0 | |
encode --width 32 --height 8192 --share 400 --format mono --slice 1 | | 2 | | setting slice 1
encode --width 32 --height 4 --share 400 --format mono --nlx 0 --nly 0 | | 2 | | setting nlx 0
encode --width 32 --height 4 --share 400 --format mono --nlx 6 | | 2 | | setting nlx 6
encode --width 32 --height 4 --share 400 --format mono --nlx 257 | | 2 | | setting nlx 257
encode --width 32 --height 4 --share 400 --format mono --nlx 1 | | 2 | | setting nly 2
encode --width 32 --height 4 --share 400 --format mono --nly 3 | | 2 | | setting nly 3
encode --width 32 --height 4 --share 400 --format mono --nly 256 | | 2 | | setting nly 256
encode --width 32 --height 4 --share 400 --format mono --nly 300 --slice 65536 | | 2 | | setting nly 300
encode --width 32 --height 4 --share 63 --format mono | | 2 | | setting share 63
encode --width 32 --height 4 --share 716798 --format mono | | 0 | |
encode --width 32 --height 4 --share 716799 --format mono | | 2 | | setting share 716799
encode --width 32 --height 4 --share 32767 --format mono --chunk 64 | | 2 | | setting share 32767
encode --width 32 --height 8188 --share 2098174 --format mono --nly 0 --chunk 8192 | | 0 | |
encode --width 32 --height 8188 --share 2098175 --format mono --nly 0 --chunk 8192 | | 2 | | setting share 2098175
decode --feeders 0 | | 2 | | setting feeders 0
decode --feeders 9 | | 2 | | setting feeders 9
decode --feeders 8 --workers 16 | | 0 | |
decode --workers 0 | | 2 | | setting workers 0
decode --workers 17 --form xs | | 2 | | setting workers 17
decode --feeders 9 --workers 260 | | 2 | | setting workers 260
decode --form xs --port 70000 | | 2 | | setting port 70000
decode --port 65536 --feeders 9 | | 2 | | setting feeders 9
decode --port 65535 | | 0 | |";

#[test]
fn sizes_out_of_range_are_named(rt: HostRuntime) {
    for row in SIZES.split('\n') {
        assert!(rt; holds(&rt, rt.alloc(), "", row), "{row}");
    }
}

const WORDS: &str = "\
| 128*0 | 1 | | words 0
| 128*0 @ @ @ 0 | 8 | |
live | 128*0 | 1 | | words 0
--help | 128*0 | 1 | | words 0
decode | | 0 | |
decode --form rtp | | 0 | |
decode --form xs --workers 4 | | 0 | |
decode --form | 128*0 | 1 | | words 2
decode --form xs --form xs | 128*0 | 1 | | words 3
decode --form raw | 128*0 | 1 | | words 2
decode --form xs --seed 4 | 128*0 | 1 | | words 3
decode --share 400 | 128*0 | 1 | | words 1
decode --port x | 128*0 | 1 | | words 2
decode --workers 00000000004 | 128*0 | 1 | | words 2
decode --workers 4294967296 | 128*0 | 1 | | words 2
encode | 128*0 | 1 | | words 1
encode --width | 128*0 | 1 | | words 2
encode --width 31 | 128*0 | 1 | | words 3
encode --width 32 --width 32 | 128*0 @ 0 @ 0 | 1 | | words 3
encode --width 32 --width | 128*0 | 1 | | words 3
encode --width=32 | 128*0 | 1 | | words 1
encode -- | 128*0 | 1 | | words 1
encode width 32 | 128*0 | 1 | | words 1
encode --wid 32 | 128*0 | 1 | | words 1
encode --mode stream | 128*0 | 1 | | words 1
encode --port 5004 | 128*0 | 1 | | words 3
encode --feeders 2 | 128*0 | 1 | | words 1
encode --form raw | 128*0 | 1 | | words 2
encode --form rtp | 128*0 | 1 | | words 3
encode --format 420 | 128*0 | 1 | | words 2
encode --format 422 | 128*0 | 1 | | words 3
encode --quant none | 128*0 | 1 | | words 2
encode --colour 2 | 128*0 | 1 | | words 2
encode --signs none | 128*0 | 1 | | words 2
encode --fill yes | 128*0 | 1 | | words 2
encode --depth x | 128*0 | 1 | | words 2
encode --bits 20 | 128*0 | 1 | | words 3
encode --width 4294967295 | 128*0 | 1 | | words 3
encode --width 4294967296 | 128*0 | 1 | | words 2
encode --width 0000000032 | 128*0 | 1 | | words 3
encode --width 00000000032 | 128*0 | 1 | | words 2
encode --width +32 | 128*0 | 1 | | words 2
encode --width -1 | 128*0 | 1 | | words 2
encode --width 3x | 128*0 | 1 | | words 2
encode --form xs --format mono --quant deadzone --nlx 1 --nly 0 --depth 8 | 128*0 | 1 | | words 13
encode --form xs --format mono --quant deadzone --nlx 1 --nly 0 --width 32 --height 4 | 128*0 | 1 | | words 15
encode --form xs --format mono --quant deadzone --nlx 1 --nly 0 --width 32 --height 4 --share | 128*0 | 1 | | words 16";

#[test]
fn words_that_are_no_command_are_named(rt: HostRuntime) {
    for row in WORDS.split('\n') {
        assert!(rt; holds(&rt, rt.alloc(), "", row), "{row}");
    }
}
