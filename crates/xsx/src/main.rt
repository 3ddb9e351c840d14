//! The program xsx: real streams round the library.
#![tactic(auto)]

use std::env;
use std::process::ExitCode;
use xs_io::{ReadAdapter, WriteAdapter};

fn main(rt: HostRuntime) -> ExitCode {
    ExitCode::from(xs_cli::program(
        &rt,
        rt.alloc(),
        env::args(&rt),
        &mut ReadAdapter::new(rt.stdin()),
        &mut WriteAdapter::new(rt.stdout()),
        &mut WriteAdapter::new(rt.stderr()),
    ))
}
