// What the reader of a slice holds of all bands.
ghost use Rattle.std.specs.Prelude.{◌≡◌, ◌≤◌, replicate, None, IfOk};

use crate::read::band::BandState;
use std::alloc::Global;
use std::marker::Model;
use xs_io::Memory;

/// For each band of a picture the counts and the truncation of its last line in the slice that was read.
#[derive(Drop)]
pub struct Above {
    pub(super) bands: Vec<BandState>,
}

impl Model for Above {
    ghost use Rattle.std.specs.Prelude.{List, Option, map};
    ghost use Rattle.xs_precinct.specs.Held.{Last};
    ghost use Rattle.xs_precinct.specs.Bands.{last_of};

    ghost Value = { List (Option Last) };

    ghost view = { λ a. map last_of a.bands.items };
}

impl Above {
    /// No line of any of so many bands.
    pub fn fresh(alloc: Global, bands: u32) -> Result<Above, Memory>
        requires few { bands ≤ 30 }
        ensures fresh { IfOk result (λ above. above ≡ replicate bands None) }
    {
        let mut fresh = Vec::new(alloc);
        'bands: for _ in 0..bands {
            if fresh.push(BandState::blank(alloc, 0)?).is_err() {
                return Err(Memory);
            }
        }
        Ok(Above { bands: fresh })
    }
}
