// Pcap files: pictures become files of packets, and such files pictures.
use crate::rows::holds;

// The words that make the grey capture as a file. Its records begin at 24, 156, 294, 432, 570, 708 and 800.
const ENCODE: &str =
    "encode --form pcap --width 32 --height 17 --format mono --nlx 2 --share 274 --chunk 64";

const STARVED: &str =
    "encode --form pcap --width 32 --height 17 --format mono --nlx 2 --share 273 --chunk 64";

const WRITTEN: &str = "\
| | 0 | file <24 |
| 544*128 | 0 | file |
--port 5004 | 544*128 | 0 | file |
--port 5005 | 544*128 | 0 | #907 |
| 1088*128 | 0 | #1790 |
--port 0 | 544*128 | 2 | | setting port 0
--port x | 544*128 | 1 | | words 16
| 543*128 | 3 | file <24 | input cut 543
| 545*128 | 3 | file | input cut 545
| 544*128 @ 0 | 7 | file <24 | read fault
| 544*128 @ @ 0 | 8 | |
| 544*128 @ @ 1 | 8 | file <24 |
| 544*128 @ @ 2 | 8 | file <156 |
| 544*128 @ @ 3 | 8 | file <294 |
| 544*128 @ @ 7 | 8 | file <800 |
| 544*128 @ @ 8 | 0 | file |";

#[test]
fn packets_are_records(rt: HostRuntime) {
    for row in WRITTEN.split('\n') {
        assert!(rt; holds(&rt, rt.alloc(), ENCODE, row), "{row}");
    }
    let starved = "| 544*128 | 4 | file <24 | budget picture 0 slice 0 size 274 share 273";
    assert!(rt; holds(&rt, rt.alloc(), STARVED, starved));
}

const DECODE: &str = "decode --form pcap";

// For any port, that of the packets and another; files that are cut, of another magic or link type; a record that is lost; and
// records and frames that are stepped over.
const READ: &str = "\
| file | 0 | 544*128 |
--port 5004 | file | 0 | 544*128 |
--port 5005 | file | 0 | | stepped 7
| file <906 | 3 | | input cut 800
| file <24 20=113 | 3 | | input link 113
| | 3 | | input cut 0
| file <23 | 3 | | input cut 0
| file <24 | 0 | |
| file 0=213 | 3 | | input magic d5c3b2a1
| grey | 3 | | input magic 004a8060
| file <800 | 5 | | missing picture 0 slice 1
| file 16*0 | 0 | 544*128 | stepped 1
| file 82=64 | 5 | | stepped 1; missing picture 0 header
| file 82=64 16*0 16*0 | 5 | | stepped 3; missing picture 0 header
| file @ 0 | 7 | | read fault";

#[test]
fn files_are_received(rt: HostRuntime) {
    for row in READ.split('\n') {
        assert!(rt; holds(&rt, rt.alloc(), DECODE, row), "{row}");
    }
}
