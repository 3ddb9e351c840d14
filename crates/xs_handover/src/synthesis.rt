// A stripe is synthesised of blocks.
ghost use Rattle.std.specs.Prelude.{◌<◌, IfOk};
ghost use Rattle.xs_params.specs.Accepted.{IsAccepted};
ghost use Rattle.xs_params.specs.Geometry.{slice_count};
ghost use Rattle.xs_lanes.specs.Claiming.{IsRun};
ghost use Rattle.xs_handover.specs.Blocks.{blocks};
ghost use Rattle.xs_handover.specs.Answers.{IsStripeFrom};

use crate::block::RowBlock;
use crate::pieces::pieces_of;
use std::alloc::Global;
use xs_io::Memory;
use xs_params::Header;
use xs_stripe::{Stripe, synthesise_stripe};

// The stripe of the blocks that were got of it. Where they were handed by a header that cuts a picture otherwise, it is one of
// no picture.
pub(crate) fn synthesise(
    alloc: Global,
    header: &Header,
    slice: u32,
    values: &[RowBlock],
) -> Result<Stripe, Memory>
    requires accepted { IsAccepted header.now }
    requires there { slice < slice_count header.now }
    requires run { IsRun blocks slice 0 values.now }
    ensures { IfOk result (IsStripeFrom header.now slice values.now) }
{
    match pieces_of(values, header, slice) {
        Some(pieces) => synthesise_stripe(
            alloc,
            header,
            slice,
            pieces.above,
            pieces.body,
            pieces.below,
        ),
        None => Stripe::blank(alloc, header, slice),
    }
}
