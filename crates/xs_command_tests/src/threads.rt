// Pictures that threads encode and receive: any crew answers alike, and a gate says which workers go on.
use crate::rows::{holds, holds_by};
use std::sync::atomic::AtomicU32;
use std::sync::atomic::Ordering::SeqCst;
use xs_io::{Gate, StopGate, TurnstileGate};

const CREWS: [&str; 4] = [
    "decode --workers 1 --feeders 1",
    "decode --workers 1 --feeders 8",
    "decode --workers 4 --feeders 3",
    "decode --workers 16 --feeders 8",
];

// In any order, each twice, lost or damaged.
const RECEIVED: &str = "\
| grey | 0 | 544*128 |
| 6 6 5 5 4 4 3 3 2 2 1 1 0 0 | 0 | 544*128 |
| 1 2 3 4 5 6 0 | 0 | 544*128 |
| 3.1 0 6 2.1 5 6.1 1 4.1 0.1 2 5.1 4 1.1 3 | 0 | 1088*128 |
| 1 2 3 4 5 6 | 5 | | missing picture 0 header
| 0 2 3 4 5 | 5 | | missing picture 0 slice 0; missing picture 0 slice 1
| 0 1 2 3 4 6 | 5 | | missing picture 0 slice 0
| 0 | 5 | | missing picture 0 slice 0; missing picture 0 slice 1
| grey 18=0 | 6 | | damaged picture 0 header truncated 58
| grey 254=224 | 6 | | damaged picture 0 slice 0 precinct 2 truncated
| grey 490=16 | 6 | | damaged picture 0 slice 1 end
| grey 30=2 | 6 | | damaged picture 0 length 621 365
| grey 97=1 grey.1 | 6 | 544*128 | damaged picture 0 slice 0 head";

#[test]
fn any_crew_answers_alike(rt: HostRuntime) {
    for crew in CREWS {
        for row in RECEIVED.split('\n') {
            assert!(rt; holds(&rt, rt.alloc(), crew, row), "{crew} {row}");
        }
    }
}

const WORKERS: [&str; 4] = [
    "encode --workers 1",
    "encode --workers 2",
    "encode --workers 4",
    "encode --workers 16",
];

// One picture, two, one of which a slice is over its share, and codestreams of small ones.
const ENCODED: &str = "\
--width 32 --height 17 --format mono --nlx 2 --share 274 --chunk 64 | 544*128 | 0 | grey |
--width 32 --height 17 --format mono --nlx 2 --share 274 --chunk 64 | 1088*128 | 0 | grey grey.1 |
--width 32 --height 17 --format mono --nlx 2 --share 273 --chunk 64 | 544*128 | 4 | | budget picture 0 slice 0 size 274 share 273
--width 32 --height 4 --format mono --nlx 1 --nly 0 --quant deadzone --form xs --share 400 | 128*0 | 0 | black |
--width 33 --height 4 --format mono --nlx 1 --nly 0 --quant deadzone --form xs --share 400 --slice 2 | 132*0 | 0 | wide |
--width 32 --height 10 --format mono --nlx 1 --nly 0 --quant deadzone --form xs --share 65 --slice 5 | 160*128 320*0 | 4 | | \
  budget picture 0 slice 0 size 66 share 65";

#[test]
fn any_number_of_workers_encodes_alike(rt: HostRuntime) {
    for words in WORKERS {
        for row in ENCODED.split('\n') {
            assert!(rt; holds(&rt, rt.alloc(), words, row), "{words} {row}");
        }
    }
}

// Where all workers are sent away at once, the caller does what they leave.
#[test]
fn what_workers_leave_is_done(rt: HostRuntime) {
    for row in ENCODED.split('\n') {
        assert!(rt;
            holds_by(&rt, rt.alloc(), "encode --workers 4", row, &StopGate),
            "{row}"
        );
    }
    for row in RECEIVED.split('\n') {
        assert!(rt;
            holds_by(
                &rt,
                rt.alloc(),
                "decode --workers 4 --feeders 3",
                row,
                &StopGate
            ),
            "{row}"
        );
    }
}

const GREY: &str = "| grey | 0 | 544*128 |";

const SEND_GREY: &str =
    "encode --width 32 --height 17 --format mono --nlx 2 --share 274 --chunk 64 --workers 2";

const SENT_GREY: &str = "| 544*128 | 0 | grey |";

const TRIAL: &str = "trial --seed 0 --workers 2";

const TRIED: &str =
    "| | 0 | x736c6963657320380a62797465732033313636360a7061636b6574732032350a726570656174732032350a776f72737420360a73756d20383536373234360a |";

// What two workers do, each of whom gets a slice, and none of whom goes on before the other has got one.
const MEETINGS: [(&str, &str); 3] = [
    (SEND_GREY, SENT_GREY),
    ("decode --workers 2 --feeders 1", GREY),
    (TRIAL, TRIED),
];

#[test]
fn two_workers_meet(rt: HostRuntime) {
    for (words, row) in MEETINGS {
        let gate = TurnstileGate::new(2);
        assert!(rt; holds_by(&rt, rt.alloc(), words, row, &gate), "{words}");
        assert!(rt; gate.met() == 2, "{words}");
    }
}

// Sends each worker away, and counts how often it is asked.
#[derive(Drop)]
struct CountingGate {
    calls: AtomicU32,
}

impl Gate for CountingGate {
    fn pass(&self, _worker: u32, _turn: u32, _won: u32) -> bool {
        self.calls.fetch_add(1, SeqCst);
        false
    }
}

// How often workers are asked in a run that goes as the row says: those that encode, and those that receive.
const ASKED: [(&str, &str, u32); 4] = [
    (SEND_GREY, SENT_GREY, 2),
    ("decode --workers 2 --feeders 1", GREY, 2),
    ("decode --workers 16 --feeders 1", GREY, 16),
    (TRIAL, TRIED, 4),
];

#[test]
fn each_worker_is_asked(rt: HostRuntime) {
    for (words, row, calls) in ASKED {
        let gate = CountingGate {
            calls: AtomicU32::new(0),
        };
        assert!(rt; holds_by(&rt, rt.alloc(), words, row, &gate), "{words}");
        assert!(rt; gate.calls.load(SeqCst) == calls, "{words}");
    }
}
