// Reading a header.
ghost use Rattle.std.specs.Prelude.{◌≡◌, ◌≢◌, ◌+◌, ◌*◌, ◌^◌, ◌<◌, ◌≤◌, Some, IfOk, IfErr, length};
ghost use Rattle.std.specs.Result.{result_err};
ghost use Rattle.xs_faults.specs.declared.HeadFault.TheVariants as HeadFault;
ghost use Rattle.xs_markers.specs.Read.{IsHeaderRead};
ghost use Rattle.xs_markers.specs.Reading.{end_fault, head_fault, missing, weights_of};

use crate::codes::{CDT, PIH, WGT};
use crate::picture::PictureFields;
use crate::seen::Seen;
use crate::segments::{segments_of, truncated};
use std::alloc::Global;
use xs_faults::HeadFault;
use xs_io::Memory;
use xs_params::{Header, Shape, Weight, Weights};

// The weights of at most thirty bands.
fn weights_of(alloc: Global, body: &[u8]) -> Result<Weights, Memory>
    requires few { length body.now ≤ 60 }
    ensures weights { IfOk result (λ weights. weights ≡ weights_of body.now) }
{
    let mut weights = [Weight {
        gain: 0,
        priority: 0,
    }; 30];
    let bands = body.len() / 2;
    'bands: for band in 0..bands {
        weights[band] = Weight {
            gain: body[2 * band],
            priority: body[2 * band + 1],
        };
    }
    Weights::from_slice(alloc, &weights[..bands])
}

// The fault of a header that ends at a place without a segment.
fn missing(bytes: &[u8], place: usize, code: u16) -> HeadFault
    requires few { length bytes.now < 2 ^ 32 }
    ensures { result ≡ missing bytes.now place code }
{
    if bytes.len() <= place {
        return truncated(bytes);
    }
    HeadFault::Absent { code }
}

// The picture header, the shape and the place of the weights, if all were seen where the header ends.
#[tactic(auto, unfolding(crate::specs::Reading::end_fault))]
fn tables_of(
    bytes: &[u8],
    seen: &Seen,
    end: usize,
) -> Result<(PictureFields, Shape, usize), HeadFault>
    requires few { length bytes.now < 2 ^ 32 }
    ensures first { result_err result ≡ end_fault bytes.now seen.now end }
    ensures picture { IfOk result (λ tables. seen.now.picture ≡ Some tables.0) }
    ensures shape { IfOk result (λ tables. seen.now.shape ≡ Some tables.1) }
    ensures weights { IfOk result (λ tables. seen.now.weights ≡ Some tables.2) }
{
    let Some(picture) = seen.picture else {
        return Err(missing(bytes, end, PIH));
    };
    let Some(shape) = seen.shape else {
        return Err(missing(bytes, end, CDT));
    };
    let Some(weights) = seen.weights else {
        return Err(missing(bytes, end, WGT));
    };
    Ok((picture, shape, weights))
}

/// Reads a header from the front of the bytes, to the marker of the first slice or to their end, and gives the number of
/// bytes that it has. Places in faults count from the first of the bytes. docs/FORMAT.md, 'Codestream layout' and 'Picture
/// header'.
pub fn read_header(alloc: Global, bytes: &[u8]) -> Result<(Header, usize), HeadFault>
    requires few { length bytes.now < 2 ^ 32 }
    ensures read { IfOk result (λ read. IsHeaderRead read.0 bytes.now read.1) }
    // Want of memory is the one fault that the bytes do not tell.
    ensures refused { IfErr result (λ fault. fault ≢ HeadFault.Memory → head_fault bytes.now ≡ Some fault) }
{
    let (seen, end) = segments_of(bytes)?;
    let (picture, shape, at) = tables_of(bytes, &seen, end)?;
    let weights = weights_of(alloc, &bytes[at..at + 2 * usize::from(picture.bands())])?;
    Ok((picture.header(shape, weights), end))
}
