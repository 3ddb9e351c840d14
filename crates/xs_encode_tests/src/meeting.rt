// Gates are asked, and change nothing.
use crate::alike::{grey_stream, is_stream};
use crate::cases::GREY;
use crate::gates::CountingGate;
use xs_io::{StopGate, TurnstileGate};

// Each of two workers gets one of two slices, and none goes on before the other has got its own.
#[test]
fn two_workers_meet(rt: HostRuntime) {
    let alloc = rt.alloc();
    let gate = TurnstileGate::new(2);
    assert!(rt; is_stream(GREY.encode(&rt, alloc, 2, &gate), grey_stream(alloc)));
    assert!(rt;
        gate.met() == 2,
        "each of them got a slice, at the same time"
    );
}

#[test]
fn workers_that_are_sent_away_leave_the_picture_to_the_caller(rt: HostRuntime) {
    let alloc = rt.alloc();
    for workers in [1, 2, 4, 16] {
        assert!(rt;
            is_stream(
                GREY.encode(&rt, alloc, workers, &StopGate),
                grey_stream(alloc)
            ),
            "{workers}"
        );
        let gate = CountingGate::new(false);
        assert!(rt;
            is_stream(GREY.encode(&rt, alloc, workers, &gate), grey_stream(alloc)),
            "{workers}"
        );
        assert!(rt;
            gate.calls() == u32::from(workers),
            "each worker is asked once"
        );
    }
}

#[test]
fn idle_workers_end(rt: HostRuntime) {
    let alloc = rt.alloc();
    let gate = CountingGate::new(true);
    assert!(rt; is_stream(GREY.encode(&rt, alloc, 2, &gate), grey_stream(alloc)));
    let calls = gate.calls();
    assert!(rt;
        2 * 4096 <= calls && calls <= 2 * 4096 + 2,
        "each after 4096 scans that claimed nothing"
    );
}
