// Pictures of 8 bits, how they are encoded, and what comes of it.
use std::alloc::Global;
use std::thread::Threads;
use xs_enc_lanes::encode_threaded;
use xs_faults::{Budget, SliceRefusal};
use xs_io::{Gate, Memory, Octets};
use xs_layout::{Format, Quant, Shape};
use xs_params::{Checked, Mode, Settings};
use xs_samples::{raw_size, read_picture};

/// A picture, each row of which has these two samples in turn, and how it is encoded.
#[derive(Clone, Copy)]
pub struct Case {
    pub samples: [u8; 2],
    pub format: Format,
    pub size: (u32, u32),
    pub levels: (u8, u8),
    pub slice: u16,
    pub quant: Quant,
    pub share: u32,
    pub chunk: u32,
}

/// A black picture in one slice of four precincts.
pub const BLACK: Case = Case {
    samples: [0, 0],
    format: Format::Mono,
    size: (32, 4),
    levels: (1, 0),
    slice: 4,
    quant: Quant::DeadZone,
    share: 400,
    chunk: 1400,
};

/// A grey picture in two slices, of four precincts and of one line.
pub const GREY: Case = Case {
    samples: [128, 128],
    format: Format::Mono,
    size: (32, 17),
    levels: (2, 2),
    slice: 4,
    quant: Quant::Uniform,
    share: 274,
    chunk: 64,
};

/// Columns that are black and grey in turn, in three components. Candidates before the third have more in a packet than its fields
/// can state.
pub const STRIPES: Case = Case {
    samples: [0, 128],
    format: Format::C444,
    size: (8192, 4),
    levels: (1, 0),
    slice: 4,
    quant: Quant::Uniform,
    share: 200000,
    chunk: 8192,
};

/// A grey picture in two slices, neither of which can be within its share.
pub const TIGHT: Case = Case {
    samples: [128, 128],
    format: Format::Mono,
    size: (32, 10),
    levels: (1, 0),
    slice: 5,
    quant: Quant::DeadZone,
    share: 65,
    chunk: 1400,
};

/// What comes of a picture: its codestream, or the slice that is over its share.
pub type PictureOutcome = Result<Octets, Budget>;

impl Case {
    // The settings, with so many workers.
    fn settings(&self, alloc: Global, workers: u8) -> Option<Checked> {
        let settings = Settings {
            shape: Shape {
                width: self.size.0,
                height: self.size.1,
                format: self.format,
                depth: 8,
            },
            bits: 20,
            nlx: self.levels.0,
            nly: self.levels.1,
            hsl: self.slice,
            colour: false,
            quant: self.quant,
            signs_apart: false,
            weights: None,
            share: self.share,
            fill: false,
            chunk: self.chunk,
            mode: Mode::Slice,
            payload_type: 96,
            ssrc: 1,
            first_timestamp: 0,
            step: 1500,
            boxes: Octets::new(alloc),
            workers,
            feeders: 2,
            port: 5004,
        };
        settings.check().ok()
    }

    // So many samples.
    fn raw(&self, alloc: Global, size: usize) -> Result<Octets, Memory> {
        let mut raw = Octets::new(alloc);
        for _ in 0..size / 2 {
            raw.extend(&self.samples)?;
        }
        Ok(raw)
    }

    /// What comes of the picture with so many workers, or nothing where memory is wanting or a setting is out of range.
    pub fn encode<T: Threads + Sync, G: Gate>(
        &self,
        threads: &T,
        alloc: Global,
        workers: u8,
        gate: &G,
    ) -> Option<PictureOutcome> {
        let settings = self.settings(alloc, workers)?;
        let shape = &settings.settings().shape;
        let raw = self.raw(alloc, raw_size(shape)).ok()?;
        if raw.len() != raw_size(shape) {
            return None;
        }
        let Ok(picture) = read_picture(alloc, shape, raw.as_slice()) else {
            return None;
        };
        match encode_threaded(threads, alloc, &picture, &settings, gate) {
            Ok(encoded) => Some(Ok(encoded.stream.bytes(alloc).ok()?)),
            Err(SliceRefusal::Budget(budget)) => Some(Err(budget)),
            Err(SliceRefusal::Memory) => None,
        }
    }
}
