// What a header of a codestream says.
ghost use Rattle.std.specs.Prelude.{◌≡◌, ◌⊎◌, ◌+◌, ◌-◌, ◌*◌, ◌<◌, ◌≤◌, [], ◌∷◌, ◌++◌, if◌then◌else◌, is_ok, min, IfOk, slice_index_or};
ghost use Rattle.xs_layout.specs.Geometry.{band_types, ll};
ghost use Rattle.xs_layout.specs.Weighting.{default_gain, default_weights_of};

use std::alloc::Global;
use std::marker::Model;
use xs_io::Memory;
use xs_layout::{Quant, Shape, Weight};

/// A weight for each band, in the order of the bands.
#[derive(Debug, Drop)]
pub struct Weights {
    items: Vec<Weight>,
}

impl Model for Weights {
    ghost use Rattle.std.specs.Prelude.{List};
    ghost use Rattle.xs_layout.specs.declared.Weight.{Weight};

    ghost Value = { List Weight };

    ghost view = { λ w. w.items.items };
}

impl Weights {
    fn new(alloc: Global) -> Weights
        ensures empty { result ≡ [] }
    {
        Weights {
            items: Vec::new(alloc),
        }
    }

    pub fn from_slice(alloc: Global, items: &[Weight]) -> Result<Weights, Memory>
        ensures copied { IfOk result (λ weights. weights ≡ items.now) }
    {
        match Vec::from_slice(alloc, items) {
            Ok(items) => Ok(Weights { items }),
            Err(_) => Err(Memory),
        }
    }

    pub fn as_slice(&self) -> &[Weight]
        ensures items { result.now ≡ self.now }
    {
        self.items.as_slice()
    }

    fn push(&mut self, weight: Weight) -> Result<(), Memory>
        ensures appended { self.new ≡ (if is_ok result then self.old ++ weight ∷ [] else self.old) }
    {
        self.items.push(weight).map_err(|_| Memory)
    }
}

/// The weights of a header where none are given: the gain of a band is half of its low-pass steps across and down,
/// rounded down, and its priority is its number.
pub fn default_weights(alloc: Global, nlx: u8, nly: u8, components: u8) -> Result<Weights, Memory>
    requires across { (1 ≤ nlx) × (nlx ≤ 5) }
    requires down { nly ≤ min 2 nlx }
    requires components { (components ≡ 1) ⊎ (components ≡ 3) }
    ensures default { IfOk result (λ weights. weights ≡ default_weights_of nlx nly components) }
{
    let bands = (2 * nly + nlx + 1) * components;
    let mut weights = Weights::new(alloc);
    'bands: for band in 0..bands {
        let gain = default_gain(nlx, nly, band / components);
        weights.push(Weight {
            gain,
            priority: band,
        })?;
    }
    Ok(weights)
}

/// The gain of a band type. On the way to a type that is not split down there is one low-pass step less across with
/// each type. The three types of a level that is split both ways have the same gain, since they differ by one step at
/// most, which is rounded away.
fn default_gain(nlx: u8, nly: u8, band_type: u8) -> u8
    requires across { nlx ≤ 5 }
    requires down { nly ≤ min 2 nlx }
    requires there { band_type < 2 * nly + nlx + 1 }
    ensures gain { result ≡ default_gain (slice_index_or (band_types nlx nly) band_type (ll 0 0)) }
{
    let wide = nlx - nly + 1;
    if band_type < wide {
        (nlx + nly - band_type) / 2
    } else {
        nly - (band_type - wide) / 3 - 1
    }
}

/// What a header of a codestream says, by the fields of the picture header of ISO/IEC 21122-1 and its two tables.
#[derive(Debug, Drop)]
pub struct Header {
    /// Length of the codestream in bytes, from its first marker to its last; 0 where it is not stated.
    pub lcod: u32,
    pub shape: Shape,
    /// Height of a slice in precincts.
    pub hsl: u16,
    /// Bits of the numbers that the transforms work on.
    pub bw: u8,
    /// Bits of them that are rounded away.
    pub fq: u8,
    /// Whether the three components are luma and colour differences.
    pub colour: bool,
    /// Wavelet levels across.
    pub nlx: u8,
    /// Wavelet levels down.
    pub nly: u8,
    /// Whether packet headers have seven bytes in place of five.
    pub long_heads: bool,
    pub quant: Quant,
    /// Whether the signs of a packet stand in a part of their own.
    pub signs_apart: bool,
    /// What the count of an insignificant code group is: 0, its prediction; 1, the truncation.
    pub run_mode: u8,
    pub weights: Weights,
}
