//! How a component is split level by level.
ghost use Rattle.std.specs.Prelude.{◌≡◌, ◌≤◌, ◌+◌, ◌-◌, ◌*◌, ◌<◌};
ghost use Rattle.xs_signal.specs.Wavelet.{low_count_at};
ghost use Rattle.xs_signal.specs.Stripe.{rows_at};
ghost use Rattle.xs_wave.specs.Bands.{IsBandSize, IsComponent, band_count, first_number, split_at};
ghost use Rattle.xs_wave.specs.Levels.{split_by};

/// The size of a component, and how many levels it is split across and down.
#[derive(Clone, Copy)]
pub struct Levels {
    pub width: usize,
    pub height: usize,
    pub across: u8,
    pub down: u8,
}

impl Levels {
    pub fn new(width: u32, height: u32, across: u8, down: u8) -> Levels
        ensures { split_by result ≡ split_at width height across down }
    {
        Levels {
            width: width as usize,
            height: height as usize,
            across,
            down,
        }
    }

    /// How many columns the low part has after so many levels.
    pub fn columns(self, level: u8) -> usize
        requires { self.width ≤ 8192 }
        ensures value { result ≡ low_count_at self.width level }
        ensures most { result ≤ 8192 }
    {
        halved(self.width, level)
    }

    /// How many rows the low part has after so many levels.
    pub fn rows(self, level: u8) -> usize
        requires { self.height ≤ 8192 }
        ensures value { result ≡ rows_at (split_by self) level }
        ensures most { result ≤ 8192 }
    {
        halved(self.height, level.min(self.down))
    }

    /// The number of the first band of a level; that of level 0 is the number of all bands.
    pub fn first_band(self, level: u8) -> usize
        requires deep { self.down ≤ self.across }
        requires level { level ≤ self.across }
        requires few { self.across ≤ 5 }
        ensures value { result ≡ first_number (split_by self) level }
        ensures most { result ≤ 21 }
    {
        let number = if self.down < level {
            self.across - level + 1
        } else {
            self.across - self.down + 1 + 3 * (self.down - level)
        };
        number as usize
    }

    /// The columns and rows of the band with this number.
    pub fn band_size(self, number: usize) -> (usize, usize)
        requires component { IsComponent (split_by self) }
        requires number { number < band_count (split_by self) }
        ensures size { IsBandSize (split_by self) number result.0 result.1 }
        ensures most_columns { result.0 ≤ 8192 }
        ensures most_rows { result.1 ≤ 8192 }
    {
        let wide = (self.across - self.down) as usize;
        if number == 0 {
            (self.columns(self.across), self.rows(self.across))
        } else if number <= wide {
            let level = self.across - number as u8;
            (self.columns(level) / 2, self.rows(level))
        } else {
            self.deep_band_size(number - wide - 1)
        }
    }

    // The size of a band of a level that is split both ways; the bands are counted from the first such one.
    fn deep_band_size(self, number: usize) -> (usize, usize)
        requires component { IsComponent (split_by self) }
        requires number { number < 3 * self.down }
        ensures size { IsBandSize (split_by self) (self.across - self.down + 1 + number) result.0 result.1 }
        ensures most_columns { result.0 ≤ 8192 }
        ensures most_rows { result.1 ≤ 8192 }
    {
        let level = self.down - 1 - (number / 3) as u8;
        let columns = self.columns(level);
        let rows = self.rows(level);
        match number % 3 {
            0 => (columns / 2, (rows + 1) / 2),
            1 => ((columns + 1) / 2, rows / 2),
            _ => (columns / 2, rows / 2),
        }
    }
}

fn halved(size: usize, levels: u8) -> usize
    requires { size ≤ 8192 }
    ensures value { result ≡ low_count_at size levels }
    ensures most { result ≤ 8192 }
{
    let mut left = size;
    for _ in 0..levels {
        left = (left + 1) / 2;
    }
    left
}
