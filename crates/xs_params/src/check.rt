// The check of settings: which one is refused first.
ghost use Rattle.std.specs.Prelude.{◌≡◌, ◌^◌, ◌<◌, ◌≤◌, ◌&&◌, ◌||◌, if◌then◌else◌, nat_lt, nat_le, length, min, IfOk, unwrap_or};
ghost use Rattle.std.specs.Result.{result_err};
ghost use Rattle.xs_lists.specs.First.{first_of};
ghost use Rattle.xs_lists.specs.Packing.{AreBytes};
ghost use Rattle.xs_lists.specs.Fields.{word_at};
ghost use Rattle.xs_layout.specs.Geometry.{band_count_of, components_of, narrowest_width};
ghost use Rattle.xs_layout.specs.Limits.{least_chunk, most_across, most_chunk, most_down, most_gain};
ghost use Rattle.xs_layout.specs.Weighting.{default_weights_of};
ghost use Rattle.xs_params.specs.Accepted.{IsAccepted};
ghost use Rattle.xs_params.specs.Check.{AreInRange, AreWeights, are_boxes, BoxesTold, bands_of_settings, band_refusals, IsChecked, is_outside, is_share, layout_refusals, packet_refusals, port_refusals, refused, setting_refusals, shape_refusals, slices_of_settings, thread_refusals, weights_fault};
ghost use Rattle.xs_params.specs.Headers.{header_of};

use crate::header::{Header, Weights, default_weights};
use crate::planes::component_width;
use crate::settings::{Field, Setting, Settings};
use std::alloc::Global;
use std::marker::Model;
use xs_io::Memory;
use xs_layout::limits::{
    HEADER_ROOM, LEAST_CHUNK, LEAST_HEIGHT, LEAST_PAYLOAD_TYPE, LEAST_SHARE, LEAST_WIDTH,
    MOST_ACROSS, MOST_AREA, MOST_BOXES, MOST_CHUNK, MOST_DOWN, MOST_FEEDERS, MOST_FIRST_TIMESTAMP,
    MOST_GAIN, MOST_HEIGHT, MOST_PACKETS, MOST_PAYLOAD_TYPE, MOST_PORT, MOST_SLICES, MOST_STEP,
    MOST_STREAM, MOST_WIDTH, MOST_WORKERS,
};
use xs_layout::{Format, Shape, Weight, ceil_div, fq_of, is_depth, is_precision};

/// Settings of which none is refused.
#[derive(Debug, Drop)]
pub struct Checked {
    settings: Settings,
}

impl Model for Checked {
    ghost use Rattle.xs_params.specs.declared.settings.Settings.{Settings};
    ghost use Rattle.xs_params.specs.Check.{IsChecked, AreInRange};

    ghost Value = { Settings };

    ghost view = { λ c. c.settings };

    ghost invariant = { λ c. IsChecked c.settings × AreInRange c.settings };
}

impl Checked {
    pub fn settings(&self) -> &Settings
        ensures settings { result.now ≡ self.now }
        ensures checked { IsChecked self.now }
        ensures in_range { AreInRange self.now }
    {
        &self.settings
    }

    /// The header of a picture, with a length that is not stated, and with the default weights where none were given.
    pub fn header(&self, alloc: Global) -> Result<Header, Memory>
        ensures in_range { AreInRange self.now }
        ensures header { IfOk result (λ header. header ≡ header_of self.now) }
        ensures accepted { IfOk result IsAccepted }
        ensures weights { IfOk result (λ header. AreWeights (bands_of_settings self.now) header.weights) }
    {
        let settings = &self.settings;
        let weights = settings.weights_or_default(alloc)?;
        Ok(Header {
            lcod: 0,
            shape: settings.shape,
            hsl: settings.hsl,
            bw: settings.bits,
            fq: fq_of(settings.bits),
            colour: settings.colour,
            nlx: settings.nlx,
            nly: settings.nly,
            long_heads: false,
            quant: settings.quant,
            signs_apart: settings.signs_apart,
            run_mode: 0,
            weights,
        })
    }
}

impl Settings {
    /// Refuses the first setting that is out of range, with its value: for the weights their number or the first bad
    /// place, for the boxes their length. A refusal gives the settings up.
    pub fn check(self) -> Result<Checked, Setting>
        ensures first { result_err result ≡ first_of (setting_refusals self) }
        ensures kept { IfOk result (λ checked. checked ≡ self) }
    {
        known_bytes(self.boxes.as_slice());
        match self.refusal() {
            Some(setting) => Err(setting),
            None => Ok(Checked { settings: self }),
        }
    }

    fn refusal(&self) -> Option<Setting>
        ensures { result ≡ first_of (setting_refusals self.now) }
    {
        let geometry = shape_refusal(&self.shape).or(self.layout_refusal());
        if geometry.is_some() {
            return geometry;
        }
        self.band_refusal()
            .or(self.packet_refusal())
            .or(thread_refusal(self.workers, self.feeders))
            .or(port_refusal(self.port))
    }

    fn layout_refusal(&self) -> Option<Setting>
        ensures { result ≡ first_of (layout_refusals self.now) }
    {
        if !is_precision(self.bits) {
            return Some(refused(Field::Bits, u64::from(self.bits)));
        }
        if is_outside(1, u32::from(MOST_ACROSS), u32::from(self.nlx)) || self.is_too_narrow() {
            return Some(refused(Field::Nlx, u64::from(self.nlx)));
        }
        if self.nly > MOST_DOWN.min(self.nlx) {
            return Some(refused(Field::Nly, u64::from(self.nly)));
        }
        if self.hsl == 0 || self.slices() > MOST_SLICES {
            return Some(refused(Field::Hsl, u64::from(self.hsl)));
        }
        None
    }

    fn band_refusal(&self) -> Option<Setting>
        ensures { result ≡ first_of (band_refusals self.now) }
    {
        if self.colour && self.shape.format != Format::C444 {
            return Some(refused(Field::Colour, 1));
        }
        let bands = count_bands(self.nlx, self.nly, self.shape.format.components());
        let bad = match &self.weights {
            Some(weights) => weights_fault(bands, weights.as_slice()),
            None => None,
        };
        bad.map(|place| refused(Field::Weights, place as u64))
    }

    fn packet_refusal(&self) -> Option<Setting>
        requires down { self.now.nly ≤ most_down }
        requires height { 0 < self.now.hsl }
        ensures { result ≡ first_of (packet_refusals self.now) }
    {
        if is_outside(LEAST_CHUNK, MOST_CHUNK, self.chunk) {
            return Some(refused(Field::Chunk, u64::from(self.chunk)));
        }
        if !self.is_share() {
            return Some(refused(Field::Share, u64::from(self.share)));
        }
        if is_outside(
            u32::from(LEAST_PAYLOAD_TYPE),
            u32::from(MOST_PAYLOAD_TYPE),
            u32::from(self.payload_type),
        ) {
            return Some(refused(Field::PayloadType, u64::from(self.payload_type)));
        }
        if self.first_timestamp > MOST_FIRST_TIMESTAMP {
            return Some(refused(Field::FirstTimestamp, u64::from(self.first_timestamp)));
        }
        if is_outside(1, MOST_STEP, self.step) {
            return Some(refused(Field::Step, u64::from(self.step)));
        }
        if self.boxes.len() > MOST_BOXES || !are_boxes(self.boxes.as_slice()) {
            return Some(refused(Field::Boxes, self.boxes.len() as u64));
        }
        None
    }

    /// Whether a slice may have so many bytes.
    fn is_share(&self) -> bool
        requires down { self.now.nly ≤ most_down }
        requires height { 0 < self.now.hsl }
        requires chunk { (least_chunk ≤ self.now.chunk) × (self.now.chunk ≤ most_chunk) }
        ensures { result ≡ is_share self.now }
    {
        let stream = u64::from(self.slices()) * u64::from(self.share) + HEADER_ROOM;
        !is_outside(LEAST_SHARE, MOST_PACKETS * self.chunk - 2, self.share) && stream <= MOST_STREAM
    }

    /// Whether the narrowest component has fewer columns than its lowest band needs.
    fn is_too_narrow(&self) -> bool
        requires { self.now.nlx ≤ most_across }
        ensures { result ≡ nat_lt (narrowest_width self.now.shape.format self.now.shape.width) (2 ^ self.now.nlx) }
    {
        component_width(&self.shape, self.shape.format.components() - 1) < 1 << self.nlx
    }

    /// The number of slices.
    fn slices(&self) -> u32
        requires down { self.now.nly ≤ most_down }
        requires height { 0 < self.now.hsl }
        ensures { result ≡ slices_of_settings self.now }
    {
        let precincts = ceil_div(self.shape.height, 1 << self.nly);
        ceil_div(precincts, u32::from(self.hsl))
    }

    /// The weights, or the default ones where none are given.
    fn weights_or_default(&self, alloc: Global) -> Result<Weights, Memory>
        requires across { (1 ≤ self.now.nlx) × (self.now.nlx ≤ most_across) }
        requires down { self.now.nly ≤ min most_down self.now.nlx }
        ensures { IfOk result (λ weights. weights ≡ unwrap_or self.now.weights (default_weights_of self.now.nlx self.now.nly (components_of self.now.shape.format))) }
    {
        match &self.weights {
            Some(weights) => Weights::from_slice(alloc, weights.as_slice()),
            None => default_weights(
                alloc,
                self.nlx,
                self.nly,
                self.shape.format.components() as u8,
            ),
        }
    }
}

fn shape_refusal(shape: &Shape) -> Option<Setting>
    ensures { result ≡ first_of (shape_refusals shape.now) }
{
    if is_outside(LEAST_WIDTH, MOST_WIDTH, shape.width) {
        return Some(refused(Field::Width, u64::from(shape.width)));
    }
    let area = u64::from(shape.width) * u64::from(shape.height);
    if is_outside(LEAST_HEIGHT, MOST_HEIGHT, shape.height) || area > MOST_AREA {
        return Some(refused(Field::Height, u64::from(shape.height)));
    }
    if !is_depth(shape.depth) {
        return Some(refused(Field::Depth, u64::from(shape.depth)));
    }
    None
}

fn thread_refusal(workers: u8, feeders: u8) -> Option<Setting>
    ensures { result ≡ first_of (thread_refusals workers feeders) }
{
    if is_outside(1, u32::from(MOST_WORKERS), u32::from(workers)) {
        return Some(refused(Field::Workers, u64::from(workers)));
    }
    if is_outside(1, u32::from(MOST_FEEDERS), u32::from(feeders)) {
        return Some(refused(Field::Feeders, u64::from(feeders)));
    }
    None
}

fn port_refusal(port: u32) -> Option<Setting>
    ensures { result ≡ first_of (port_refusals port) }
{
    is_outside(1, MOST_PORT, port).then_some(refused(Field::Port, u64::from(port)))
}

fn refused(field: Field, value: u64) -> Setting
    ensures { result ≡ refused field value }
{
    Setting { field, value }
}

/// Whether a number is not one of `low` to `high`.
fn is_outside(low: u32, high: u32, value: u32) -> bool
    ensures { result ≡ is_outside low high value }
{
    value < low || high < value
}

fn count_bands(nlx: u8, nly: u8, components: u32) -> u32
    requires { components ≤ 3 }
    ensures { result ≡ band_count_of nlx nly components }
{
    (2 * u32::from(nly) + u32::from(nlx) + 1) * components
}

/// What is wrong with weights: that there is not one for each band, or the first that is out of range.
fn weights_fault(bands: u32, weights: &[Weight]) -> Option<usize>
    ensures { result ≡ weights_fault bands weights.now }
{
    if weights.len() != bands as usize {
        return Some(weights.len());
    }
    weights
        .iter()
        .position(|weight| is_out_of_range(weight, bands))
}

fn is_out_of_range(weight: &Weight, bands: u32) -> bool
    ensures { result ≡ (nat_lt most_gain weight.now.gain || nat_le bands weight.now.priority) }
{
    weight.gain > MOST_GAIN || u32::from(weight.priority) >= bands
}

/// What the type of bytes says of them.
fn known_bytes(bytes: &[u8])
    ensures { AreBytes bytes.now }
{}

/// The test of boxes tells whether there are such boxes.
#[tactic(auto, using(crate::proofs::Boxes::boxes_told))]
pub fn boxes_told()
    ensures { BoxesTold }
{}

/// Whether the bytes are whole boxes, one after the other, each of a stated length of 8 or more.
fn are_boxes(bytes: &[u8]) -> bool
    ensures { result ≡ are_boxes 0 bytes.now }
{
    let mut place = 0;
    'boxes: while place < bytes.len() {
        let Some(length) = box_length(&bytes[place..]) else {
            return false;
        };
        place += length;
    }
    true
}

/// The length of the box at the front, if it is whole.
fn box_length(bytes: &[u8]) -> Option<usize>
    ensures { result ≡ (if nat_le 8 (word_at bytes.now 0) && nat_le (word_at bytes.now 0) (length bytes.now) then Some (word_at bytes.now 0) else None) }
{
    let Some(stated) = bytes.first_chunk::<4>() else {
        return None;
    };
    let length = u32::from_be_bytes(*stated) as usize;
    (8..=bytes.len()).contains(&length).then_some(length)
}
