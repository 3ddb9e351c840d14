// A header unit that was read.
ghost use Rattle.std.specs.Prelude.{◌≡◌, ◌<◌, ◌^◌, length};
ghost use Rattle.xs_board.specs.Reading.{reading_of};

use crate::reading::Reading;
use xs_io::Octets;

/// The bytes of a header unit, fewer than 2^32, and what is read of them.
#[derive(Drop)]
pub struct HeadRead {
    pub bytes: Octets,
    pub reading: Reading,
    pub ghost few: { length bytes < 2 ^ 32 },
    pub ghost is_reading: { reading ≡ reading_of bytes },
}
