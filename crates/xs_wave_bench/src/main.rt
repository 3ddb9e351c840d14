//! Splits or joins a plane of 4096 by 2160 numbers as often as it is told: the work that bench/wave.sh times.
#![tactic(auto)]

use std::process::ExitCode;
use std::{env, io};
use xs_io::Memory;
use xs_wave::{BandPlanes, Plane, analyse_plane, synthesise_plane};

const WIDTH: u32 = 4096;

const HEIGHT: u32 = 2160;

const NLX: u8 = 5;

const NLY: u8 = 2;

fn words(rt: &HostRuntime) -> io::Result<Vec<String>> {
    let mut words = Vec::new(rt.alloc());
    for word in env::args(rt)?.skip(1) {
        words.push(word)?;
    }
    Ok(words)
}

fn split(rt: &HostRuntime, times: u32) -> Result<(), Memory> {
    let plane = Plane::blank(rt.alloc(), WIDTH, HEIGHT)?;
    for _ in 0..times {
        analyse_plane(rt.alloc(), &plane, NLX, NLY)?;
    }
    Ok(())
}

fn join(rt: &HostRuntime, times: u32) -> Result<(), Memory> {
    let bands = BandPlanes::blank(rt.alloc(), WIDTH, HEIGHT, NLX, NLY)?;
    for _ in 0..times {
        synthesise_plane(rt.alloc(), &bands, WIDTH, HEIGHT, NLX, NLY)?;
    }
    Ok(())
}

fn main(rt: HostRuntime) -> ExitCode {
    let Ok(words) = words(&rt) else {
        return ExitCode::from(1);
    };
    let [way, times] = words.as_slice() else {
        return ExitCode::from(1);
    };
    let Ok(times) = times.as_str().parse::<u32>() else {
        return ExitCode::from(1);
    };
    let done = if way.as_str() == "split" {
        split(&rt, times)
    } else {
        join(&rt, times)
    };
    ExitCode::from(if done.is_ok() { 0 } else { 2 })
}
