// Writing a header.
ghost use Rattle.std.specs.Prelude.{◌≡◌, ◌<◌, ◌^◌, false, [], ◌∷◌, ◌++◌, IfOk, OnOk};
ghost use Rattle.xs_layout.specs.Geometry.{components_of, sampling_of};
ghost use Rattle.xs_grammar.specs.Header.{quant_code, component_fields, weight_fields, picture_fields, segment_bytes};
ghost use Rattle.xs_params.specs.Accepted.{IsAccepted};
ghost use Rattle.xs_grammar.specs.Coded.{field_bytes, header_bytes};
ghost use Rattle.xs_markers.specs.Fields.{AreFields, IsBody};

use crate::codes::{CAP, CDT, PIH, WGT};
use crate::fields::bytes_of_fields;
use std::alloc::Global;
use xs_io::{Memory, Octets};
use xs_params::{Format, Header, Quant, markers};

// By how much a component is narrower than the picture.
fn sampling_of(format: Format, component: u32) -> u32
    ensures { result ≡ sampling_of format component }
{
    match format {
        Format::C422 if component > 0 => 2,
        Format::Mono | Format::C422 | Format::C444 => 1,
    }
}

fn quant_code(quant: Quant) -> u32
    ensures { result ≡ quant_code quant }
{
    match quant {
        Quant::DeadZone => 0,
        Quant::Uniform => 1,
    }
}

fn stated_length(header: &Header) -> u32
    ensures { result ≡ header.now.lcod }
{
    header.lcod
}

// The fields of the picture header.
fn picture_fields(header: &Header) -> [(u32, u32); 23]
    requires accepted { IsAccepted header.now }
    requires short_heads { header.now.long_heads ≡ false }
    requires run_mode { header.now.run_mode ≡ 0 }
    ensures fields { result ≡ picture_fields header.now 0 0 0 }
    ensures lcod { header.now.lcod < 2 ^ 32 }
    ensures hsl { header.now.hsl < 2 ^ 16 }
{
    [
        (32, stated_length(header)),
        (16, 0),
        (16, 0),
        (16, header.shape.width),
        (16, header.shape.height),
        (16, 0),
        (16, u32::from(header.hsl)),
        (8, header.shape.format.components()),
        (8, 4),
        (8, 8),
        (8, u32::from(header.bw)),
        (4, u32::from(header.fq)),
        (4, 4),
        (1, 0),
        (3, 0),
        (4, u32::from(header.colour)),
        (4, u32::from(header.nlx)),
        (4, u32::from(header.nly)),
        (1, 0),
        (1, 0),
        (2, quant_code(header.quant)),
        (2, u32::from(header.signs_apart)),
        (2, 0),
    ]
}

// The fields of the components.
fn component_fields(alloc: Global, header: &Header) -> Result<Vec<(u32, u32)>, Memory>
    requires accepted { IsAccepted header.now }
    ensures fields { IfOk result (λ fields. fields.items ≡ component_fields header.now) }
    ensures body { IfOk result (λ fields. IsBody fields.items) }
{
    let mut fields = Vec::new(alloc);
    'components: for component in 0..header.shape.format.components() {
        let sampling = sampling_of(header.shape.format, component);
        push_all(
            &mut fields,
            &[(8, u32::from(header.shape.depth)), (4, sampling), (4, 1)],
        )?;
    }
    Ok(fields)
}

// The fields of a weight.
fn pair_of(gain: u8, priority: u8) -> [(u32, u32); 2]
    ensures fields { result ≡ (8, gain) ∷ (8, priority) ∷ [] }
    ensures room { AreFields result }
{
    [(8, u32::from(gain)), (8, u32::from(priority))]
}

// The fields of the weights.
fn weight_fields(alloc: Global, header: &Header) -> Result<Vec<(u32, u32)>, Memory>
    requires accepted { IsAccepted header.now }
    ensures fields { IfOk result (λ fields. fields.items ≡ weight_fields header.now) }
    ensures body { IfOk result (λ fields. IsBody fields.items) }
{
    let weights = header.weights.as_slice();
    let mut fields = Vec::new(alloc);
    'weights: for at in 0..weights.len() {
        let weight = weights[at];
        push_all(&mut fields, &pair_of(weight.gain, weight.priority))?;
    }
    Ok(fields)
}

fn push_all(fields: &mut Vec<(u32, u32)>, more: &[(u32, u32)]) -> Result<(), Memory>
    ensures { OnOk result (fields.new.items ≡ fields.old.items ++ more.now) }
{
    fields.extend_from_slice(more).map_err(|_| Memory)
}

// Appends a segment: its code, its length, which counts itself, and its fields.
fn put_segment(
    alloc: Global,
    out: &mut Octets,
    code: u16,
    fields: &[(u32, u32)],
) -> Result<(), Memory>
    requires body { IsBody fields.now }
    ensures appended { OnOk result (out.new ≡ out.old ++ segment_bytes (record { code = code; body = field_bytes fields.now })) }
{
    let body = bytes_of_fields(alloc, fields)?;
    let length = body.len() as u16 + 2;
    out.extend(&code.to_be_bytes())?;
    out.extend(&length.to_be_bytes())?;
    out.extend(body.as_slice())
}

/// The bytes of a header: the start marker, empty capabilities, the picture header, the components and the weights.
/// docs/FORMAT.md, 'Codestream layout' and 'Picture header'.
pub fn write_header(alloc: Global, header: &Header) -> Result<Octets, Memory>
    requires accepted { IsAccepted header.now }
    requires short_heads { header.now.long_heads ≡ false }
    requires run_mode { header.now.run_mode ≡ 0 }
    ensures written { IfOk result (λ bytes. bytes ≡ header_bytes header.now) }
{
    let components = component_fields(alloc, header)?;
    let weights = weight_fields(alloc, header)?;
    let mut out = Octets::new(alloc);
    out.extend(&markers::SOC)?;
    put_segment(alloc, &mut out, CAP, &[])?;
    put_segment(alloc, &mut out, PIH, &picture_fields(header))?;
    put_segment(alloc, &mut out, CDT, components.as_slice())?;
    put_segment(alloc, &mut out, WGT, weights.as_slice())?;
    Ok(out)
}
