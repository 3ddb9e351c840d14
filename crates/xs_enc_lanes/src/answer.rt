// The slices of a picture, in order.
ghost use Rattle.std.specs.Prelude.{◌≡◌, ◌<◌, ℕ, Bool, [], None, Some, length, IfErr, IfOk, OnOk, ◌++◌, ◌∷◌, slice_index_or, slice_set};
ghost use Rattle.xs_params.specs.declared.header.Header.{Header};
ghost use Rattle.xs_params.specs.Rows.{Rows};
ghost use Rattle.xs_picture.specs.Encoded.{AreSlicesOf, WhyUnwritten};
ghost use Rattle.xs_enc_lanes.specs.Answered.{AreAllThere, AreInOrder, AreRight};

use crate::activity::{CodedOutcome, CodedSlice};
use std::alloc::Global;
use xs_faults::SliceRefusal;
use xs_io::{Memory, Octets};

// So many empty places.
fn no_slices(alloc: Global, count: u32) -> Result<Vec<Option<CodedSlice>>, Memory>
    ensures { IfOk result (λ places. AreInOrder [] count places.items) }
{
    let mut places = Vec::new(alloc);
    'making: for _ in 0..count {
        if places.push(None).is_err() {
            return Err(Memory);
        }
    }
    Ok(places)
}

// Puts the slice at its place, where it has one.
fn put_slice(places: &mut Vec<Option<CodedSlice>>, coded: CodedSlice)
    ensures placed { coded.slice < length places.old.items → places.new.items ≡ slice_set places.old.items coded.slice (Some coded) }
    ensures past { (coded.slice < length places.old.items → ⊥) → places.new.items ≡ places.old.items }
{
    let at = coded.slice as usize;
    if at < places.len() {
        places[at] = Some(coded);
    }
}

// The slices below a number, in order.
pub(crate) fn in_order(
    alloc: Global,
    slices: Vec<CodedSlice>,
    count: u32,
) -> Result<Vec<Option<CodedSlice>>, Memory>
    ensures { IfOk result (λ places. AreInOrder slices.items count places.items) }
{
    let mut places = no_slices(alloc, count)?;
    'placing: for coded in slices {
        put_slice(&mut places, coded);
    }
    Ok(places)
}

// The slice at a place, which has none afterwards.
fn take_slice(places: &mut Vec<Option<CodedSlice>>, slice: usize) -> Option<CodedSlice>
    requires { slice < length places.old.items }
    ensures taken { result ≡ slice_index_or places.old.items slice None }
    ensures left { places.new.items ≡ slice_set places.old.items slice None }
{
    places[slice].take()
}

// One more slice.
fn add(slices: &mut Vec<Octets>, slice: Octets) -> Result<(), Memory>
    ensures added { OnOk result (slices.new.items ≡ slices.old.items ++ slice ∷ []) }
{
    slices.push(slice).map_err(|_| Memory)
}

// The bytes of all slices, or the first that is over its share.
pub(crate) fn bytes_of(
    alloc: Global,
    mut places: Vec<Option<CodedSlice>>,
) -> Result<Vec<Octets>, SliceRefusal>
    requires whole { AreAllThere places.items }
    ensures slices { (h : Header) (rows : Rows) (share : ℕ) (fill : Bool) → AreRight h rows share fill places.items → IfOk result (λ slices. AreSlicesOf h rows share fill slices.items) }
    ensures refused { (h : Header) (rows : Rows) (share : ℕ) (fill : Bool) → AreRight h rows share fill places.items → IfErr result (WhyUnwritten h rows share) }
{
    let mut slices = Vec::new(alloc);
    'slices: for slice in 0..places.len() {
        let Some(coded) = take_slice(&mut places, slice) else {
            unreachable!()
        };
        match coded.outcome {
            CodedOutcome::Bytes(bytes) => add(&mut slices, bytes)?,
            CodedOutcome::Over(budget) => return Err(SliceRefusal::Budget(budget)),
        }
    }
    Ok(slices)
}
