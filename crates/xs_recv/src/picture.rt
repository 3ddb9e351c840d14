// A picture is filled from stripes.
ghost use Rattle.std.specs.Prelude.{IfOk};
ghost use Rattle.xs_params.specs.Accepted.{IsAccepted};
ghost use Rattle.xs_params.specs.Picture.{IsPicture};
ghost use Rattle.xs_params.specs.Rows.{Rows};
ghost use Rattle.xs_decoding.specs.Decoded.{IsPictureOf};
ghost use Rattle.xs_recv.specs.Finishing.{AreStripesOf, HaveStripes};

use crate::activity::MadeStripe;
use std::alloc::Global;
use xs_io::Memory;
use xs_params::{Header, Planes};

// The picture of the stripes of all slices, in any order. Each stripe is given up when its rows are copied.
pub(crate) fn fill_picture(
    alloc: Global,
    header: &Header,
    made: Vec<MadeStripe>,
) -> Result<Planes, Memory>
    requires accepted { IsAccepted header.now }
    requires stripes { (rows : Rows) × AreStripesOf header.now rows made.items }
    ensures { IfOk result (λ picture. (rows : Rows) → AreStripesOf header.now rows made.items → HaveStripes header.now made.items → IsPictureOf header.now rows picture) }
{
    let mut picture = Planes::blank(alloc, header.shape)?;
    let mut stripes = made;
    'filling: while let Some(next) = stripes.pop() {
        next.stripe.write_to(&mut picture);
    }
    known_picture(&picture);
    Ok(picture)
}

// What the type of planes says of them.
fn known_picture(picture: &Planes)
    ensures { IsPicture picture.now }
{
    picture.shape();
}
