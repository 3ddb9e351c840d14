// Rows of a component in a raw picture, so many at once: 'Samples, scaling and colour'.
ghost use Rattle.std.specs.Prelude.{◌≡◌, ◌+◌, ◌-◌, ◌*◌, ◌^◌, ◌<◌, ◌≤◌, length};
ghost use Rattle.xs_layout.specs.Geometry.{components_of};
ghost use Rattle.xs_params.specs.Picture.{IsShape, raw_size, row_first, sample_count, sample_size, width_of};
ghost use Rattle.xs_samples.specs.Rows.{AreRows, rows_size};

use crate::raw::{row_place, sample_size};
use xs_params::{Shape, component_width};

/// About so many bytes are read or written at once.
const CHUNK: usize = 1 << 16;

/// Rows of a component, from the first on to before the end.
#[derive(Clone, Copy)]
pub struct RowRange {
    pub component: u32,
    pub first: u32,
    pub end: u32,
}

impl RowRange {
    /// The rows at the front of a picture.
    pub fn front(shape: &Shape) -> RowRange
        requires { IsShape shape.now }
        ensures rows { AreRows shape.now result }
        ensures component { result.component ≡ 0 }
        ensures first { result.first ≡ 0 }
        ensures place { row_first shape.now result.component result.first ≡ 0 }
    {
        RowRange {
            component: 0,
            first: 0,
            end: rows_at_once(shape),
        }
    }

    /// The rows that come after these. After the last ones they are of no component.
    pub fn next(self, shape: &Shape) -> RowRange
        requires shape { IsShape shape.now }
        requires rows { AreRows shape.now self }
        requires component { self.component < components_of shape.now.format }
        ensures rows { AreRows shape.now result }
        ensures place { row_first shape.now result.component result.first ≡ row_first shape.now self.component self.end }
        ensures last { result.component ≡ components_of shape.now.format → row_first shape.now self.component self.end ≡ sample_count shape.now }
        ensures line { result.component * shape.now.height + result.first ≡ self.component * shape.now.height + self.end }
    {
        let most = rows_at_once(shape);
        if self.end == shape.height {
            return RowRange {
                component: self.component + 1,
                first: 0,
                end: most,
            };
        }
        RowRange {
            component: self.component,
            first: self.end,
            end: self.end + most.min(shape.height - self.end),
        }
    }

    /// The bytes of the rows.
    pub fn size(self, shape: &Shape) -> usize
        requires shape { IsShape shape.now }
        requires rows { AreRows shape.now self }
        requires component { self.component < components_of shape.now.format }
        ensures size { result ≡ rows_size shape.now self }
        ensures end { row_first shape.now self.component self.first * sample_size shape.now.depth + result ≡ row_first shape.now self.component self.end * sample_size shape.now.depth }
        ensures within { row_first shape.now self.component self.end * sample_size shape.now.depth ≤ raw_size shape.now }
        ensures few { raw_size shape.now < 2 ^ 28 }
    {
        let width = component_width(shape, self.component) as usize;
        (self.end - self.first) as usize * width * sample_size(shape.depth)
    }

    /// Where the first byte of the rows lies.
    pub fn place(self, shape: &Shape) -> usize
        requires shape { IsShape shape.now }
        requires rows { AreRows shape.now self }
        requires component { self.component < components_of shape.now.format }
        ensures place { result ≡ row_first shape.now self.component self.first * sample_size shape.now.depth }
        ensures within { result ≤ raw_size shape.now }
        ensures few { raw_size shape.now < 2 ^ 28 }
    {
        row_place(shape, self.component, self.first)
    }

    /// Where the first byte of a row lies among the bytes of the rows.
    pub fn row_start(self, shape: &Shape, row: u32) -> usize
        requires shape { IsShape shape.now }
        requires rows { AreRows shape.now self }
        requires component { self.component < components_of shape.now.format }
        requires from { self.first ≤ row }
        requires below { row < self.end }
        ensures start { result ≡ (row - self.first) * width_of shape.now self.component * sample_size shape.now.depth }
        ensures end { result + width_of shape.now self.component * sample_size shape.now.depth ≤ rows_size shape.now self }
        ensures few { rows_size shape.now self < 2 ^ 28 }
    {
        let width = component_width(shape, self.component) as usize;
        (row - self.first) as usize * width * sample_size(shape.depth)
    }
}

/// So many rows of the first component have about as many bytes as are read or written at once.
fn rows_at_once(shape: &Shape) -> u32
    requires { IsShape shape.now }
    ensures some { 1 ≤ result }
    ensures most { result ≤ shape.now.height }
{
    let row = shape.width as usize * sample_size(shape.depth);
    let rows = (CHUNK / row).max(1);
    shape.height.min(rows as u32)
}
