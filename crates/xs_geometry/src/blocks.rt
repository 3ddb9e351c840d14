//! Where the rows of a slice stand in one list of numbers: band after band, and line after line.
ghost use Rattle.std.specs.Prelude.{◌≡◌, ◌+◌, ◌-◌, ◌*◌, ◌^◌, ◌<◌, ◌≤◌, ◌++◌, ◌∷◌, []};
ghost use Rattle.xs_params.specs.Geometry.{slice_count};
ghost use Rattle.xs_geometry.specs.Blocks.{AreBlocks, blocks_of, room_for};

use crate::geometry::Geometry;

/// The most bands that a picture has.
const MOST: usize = 30;

/// The lines of a band in a slice, their width, and the place of the first one's first number.
#[derive(Clone, Copy)]
pub struct BandBlock {
    pub first: u32,
    pub lines: u32,
    pub width: u32,
    pub start: usize,
}

impl BandBlock {
    /// The place of a line's first number, and one past the last.
    pub fn row(self, line: u32) -> (usize, usize)
        requires from { self.first ≤ line }
        requires there { line < self.first + self.lines }
        requires room { self.start + room_for self < 2 ^ 64 }
        ensures start { result.0 ≡ self.start + (line - self.first) * self.width }
        ensures end { result.1 ≡ result.0 + self.width }
        ensures inside { result.1 ≤ self.start + room_for self }
    {
        let width = self.width as usize;
        let start = self.start + (line - self.first) as usize * width;
        (start, start + width)
    }
}

/// The blocks of the bands of a slice, in order, and how many numbers they have.
#[derive(Drop)]
pub struct BlockTable {
    pub bands: [BandBlock; MOST],
    pub count: u32,
    pub numbers: usize,
}

impl BlockTable {
    /// The blocks of a slice.
    pub fn of(geometry: &Geometry, slice: u32) -> BlockTable
        requires { slice < slice_count geometry.now }
        ensures blocks { AreBlocks geometry.now slice result }
        ensures few { result.count ≤ 30 }
    {
        let mut table = BlockTable::empty();
        for band in 0..geometry.bands() {
            let (first, end) = geometry.slice_lines(slice, band);
            table.add(first, end - first, geometry.band_width(band));
        }
        table
    }

    /// No blocks.
    pub fn empty() -> BlockTable
        ensures blocks { blocks_of result ≡ [] }
        ensures count { result.count ≡ 0 }
        ensures numbers { result.numbers ≡ 0 }
    {
        let none = BandBlock {
            first: 0,
            lines: 0,
            width: 0,
            start: 0,
        };
        BlockTable {
            bands: [none; MOST],
            count: 0,
            numbers: 0,
        }
    }

    // One more block behind the others.
    fn add(&mut self, first: u32, lines: u32, width: u32)
        requires room { self.old.count < 30 }
        requires numbers { self.old.numbers ≤ self.old.count * 2 ^ 26 }
        requires lines { first + lines ≤ 8192 }
        requires width { width ≤ 8192 }
        ensures blocks { blocks_of self.new ≡ blocks_of self.old ++ record { first = first; lines = lines; width = width; start = self.old.numbers } ∷ [] }
        ensures count { self.new.count ≡ self.old.count + 1 }
        ensures numbers { self.new.numbers ≡ self.old.numbers + lines * width }
        ensures few { self.new.numbers ≤ self.new.count * 2 ^ 26 }
    {
        self.bands[self.count as usize] = BandBlock {
            first,
            lines,
            width,
            start: self.numbers,
        };
        self.count += 1;
        self.numbers += lines as usize * width as usize;
    }
}
