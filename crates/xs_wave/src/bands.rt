//! The planes of a component's bands, seen as a list of planes.
ghost use Rattle.std.specs.Prelude.{◌≡◌, ℕ, ℤ, pos, ◌<◌, List, length, IfOk, slice_index_or, slice_set, [], ◌∷◌, ◌++◌};
ghost use Rattle.std.specs.Borrow.{sem};
ghost use Rattle.xs_wave.specs.Bands.{AreBandPlanes, IsComponent, split_at};
ghost use Rattle.xs_wave.specs.LentBands.{LendsPlane};
ghost use Rattle.xs_wave.specs.Planes.{plane_of};

use crate::levels::Levels;
use crate::planes::Plane;
use std::alloc::Global;
use std::marker::Model;
use xs_io::Memory;

/// A plane for each band type of one component, in the order of the types.
#[derive(Drop)]
pub struct BandPlanes {
    planes: Vec<Plane>,
}

impl Model for BandPlanes {
    ghost use Rattle.std.specs.Prelude.{List, ℤ};

    ghost Value = { List (List (List ℤ)) };

    ghost view = { λ s. s.planes.items };
}

impl BandPlanes {
    /// Planes of zeros, each of the size of its band.
    pub fn blank(
        alloc: Global,
        width: u32,
        height: u32,
        nlx: u8,
        nly: u8,
    ) -> Result<BandPlanes, Memory>
        requires component { IsComponent (split_at width height nlx nly) }
        ensures planes { IfOk result (AreBandPlanes (split_at width height nlx nly)) }
        ensures zeros { IfOk result (λ bands. (number row column : ℕ) → plane_of (slice_index_or bands number []) row column ≡ pos 0) }
    {
        let levels = Levels::new(width, height, nlx, nly);
        let mut bands = BandPlanes {
            planes: Vec::new(alloc),
        };
        for number in 0..levels.first_band(0) {
            let (columns, rows) = levels.band_size(number);
            let plane = Plane::blank(alloc, columns as u32, rows as u32)?;
            bands.push(plane)?;
        }
        Ok(bands)
    }

    pub fn plane(&self, number: u32) -> &Plane
        requires { number < length self.now }
        ensures { result.now ≡ slice_index_or self.now number [] }
    {
        self.plane_at(number as usize)
    }

    pub fn plane_mut(&mut self, number: u32) -> &mut Plane
        requires { number < length self.old }
        ensures* after { sem 𝓛 (LendsPlane self.entry number result) }
        ensures value { result.now ≡ slice_index_or self.old number [] }
    {
        &mut self.planes[number as usize]
    }

    fn push(&mut self, plane: Plane) -> Result<(), Memory>
        ensures { IfOk result (λ _. self.new ≡ self.old ++ plane ∷ []) }
    {
        self.planes.push(plane).map_err(|_| Memory)
    }

    /// Planes with no rows.
    pub(crate) fn empty(alloc: Global, count: usize) -> Result<BandPlanes, Memory>
        ensures { IfOk result (λ bands. length bands ≡ count) }
    {
        let mut planes = Vec::new(alloc);
        for _ in 0..count {
            planes.push(Plane::empty(alloc)).map_err(|_| Memory)?;
        }
        Ok(BandPlanes { planes })
    }

    pub(crate) fn plane_at(&self, number: usize) -> &Plane
        requires { number < length self.now }
        ensures { result.now ≡ slice_index_or self.now number [] }
    {
        &self.planes[number]
    }

    pub(crate) fn put(&mut self, number: usize, plane: Plane)
        requires { number < length self.old }
        ensures { self.new ≡ slice_set self.old number plane }
    {
        self.planes[number] = plane;
    }
}
