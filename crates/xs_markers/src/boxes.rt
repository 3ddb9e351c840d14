// Boxes of a file format before a header.
ghost use Rattle.std.specs.Prelude.{◌≡◌, ◌+◌, ◌<◌, ◌≤◌, ◌^◌, IfOk, length};
ghost use Rattle.std.specs.Result.{result_err};
ghost use Rattle.xs_faults.specs.declared.HeadFault.TheVariants as HeadFault;
ghost use Rattle.xs_lists.specs.Fields.{word_at};
ghost use Rattle.xs_markers.specs.Units.{box_fault, boxes_end, boxes_fault, is_start};

use crate::codes::SOC;
use crate::numbers::{half_word_at, word_at};
use crate::segments::truncated;
use xs_faults::HeadFault;

// Whether a codestream begins at a place.
fn is_start(bytes: &[u8], place: usize) -> bool
    requires inside { place ≤ length bytes.now }
    requires few { length bytes.now < 2 ^ 32 }
    ensures { result ≡ is_start bytes.now place }
{
    place + 2 <= bytes.len() && half_word_at(bytes, place) == SOC
}

// The length of the box at a place.
#[tactic(auto, unfolding(crate::specs::Units::box_fault))]
fn box_length(bytes: &[u8], place: usize) -> Result<usize, HeadFault>
    requires inside { place ≤ length bytes.now }
    requires few { length bytes.now < 2 ^ 32 }
    ensures first { result_err result ≡ box_fault bytes.now place }
    ensures length { IfOk result (λ size. size ≡ word_at bytes.now place) }
    ensures some { IfOk result (λ size. 8 ≤ size) }
    ensures whole { IfOk result (λ size. place + size ≤ length bytes.now) }
{
    if bytes.len() < place + 4 {
        return Err(truncated(bytes));
    }
    let length = word_at(bytes, place);
    if length < 8 {
        return Err(HeadFault::BoxLength {
            length,
            place: place as u32,
        });
    }
    if bytes.len() < place + length as usize {
        return Err(truncated(bytes));
    }
    Ok(length as usize)
}

/// The place of the start marker, after boxes of a file format. It takes no memory. docs/FORMAT.md, 'Picture header'.
pub fn skip_boxes(bytes: &[u8]) -> Result<usize, HeadFault>
    requires few { length bytes.now < 2 ^ 32 }
    ensures first { result_err result ≡ boxes_fault bytes.now }
    ensures end { IfOk result (λ place. place ≡ boxes_end bytes.now) }
    ensures within { IfOk result (λ place. place ≤ length bytes.now) }
{
    let mut place = 0;
    'boxes: while !is_start(bytes, place) {
        place += box_length(bytes, place)?;
    }
    Ok(place)
}
