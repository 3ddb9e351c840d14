//! Chooses the candidate of a slice and writes the slice, as often as it is told: the work whose instructions bench/choice.sh counts.
#![tactic(auto)]

mod rows;

use rows::draw_rows;
use std::alloc::Global;
use std::process::ExitCode;
use std::{env, io};
use xs_geometry::Geometry;
use xs_io::Octets;
use xs_params::{Checked, Format, Mode, Quant, Settings, Shape};
use xs_slice_write::{SliceRefusal, SliceScratch, WantedSlice, write_slice_in};

/// The settings of 3840x2160 samples in 4:2:2 with so many bytes a slice.
fn settings(alloc: Global, share: u32) -> Option<Checked> {
    let settings = Settings {
        shape: Shape {
            width: 3840,
            height: 2160,
            format: Format::C422,
            depth: 10,
        },
        bits: 20,
        nlx: 5,
        nly: 2,
        hsl: 4,
        colour: false,
        quant: Quant::Uniform,
        signs_apart: false,
        weights: None,
        share,
        fill: false,
        chunk: 1400,
        mode: Mode::Slice,
        payload_type: 96,
        ssrc: 1,
        first_timestamp: 0,
        step: 1500,
        boxes: Octets::new(alloc),
        workers: 4,
        feeders: 2,
        port: 5004,
    };
    settings.check().ok()
}

// Writes the first slice so many times.
fn write(alloc: Global, settings: &Checked, times: u32) -> Result<(), SliceRefusal> {
    let share = settings.settings().share;
    let header = settings.header(alloc)?;
    let geometry = Geometry::of(&header);
    if geometry.slices() == 0 {
        return Ok(());
    }
    let rows = draw_rows(alloc, &geometry)?;
    let mut scratch = SliceScratch::of(alloc, &header)?;
    let wanted = WantedSlice {
        rows: &rows,
        slice: 0,
        share,
        fill: false,
    };
    'times: for _ in 0..times {
        write_slice_in(alloc, &header, &wanted, &mut scratch)?;
    }
    Ok(())
}

fn words(rt: &HostRuntime) -> io::Result<Vec<String>> {
    let mut words = Vec::new(rt.alloc());
    for word in env::args(rt)?.skip(1) {
        words.push(word)?;
    }
    Ok(words)
}

fn main(rt: HostRuntime) -> ExitCode {
    let Ok(words) = words(&rt) else {
        return ExitCode::from(1);
    };
    let [share, times] = words.as_slice() else {
        return ExitCode::from(1);
    };
    let (Ok(share), Ok(times)) = (share.as_str().parse::<u32>(), times.as_str().parse::<u32>())
    else {
        return ExitCode::from(1);
    };
    let Some(settings) = settings(rt.alloc(), share) else {
        return ExitCode::from(2);
    };
    let written = write(rt.alloc(), &settings, times);
    ExitCode::from(if written.is_ok() { 0 } else { 2 })
}
