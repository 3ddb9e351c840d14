// Fields of the headers of precincts and packets: docs/FORMAT.md, 'Slice, precinct and packet'.
ghost use Rattle.std.specs.Prelude.{◌≡◌, ◌+◌, ◌*◌, ◌^◌, ◌<◌, ◌≤◌, length};
ghost use Rattle.xs_bits.specs.Reading.{left};
ghost use Rattle.xs_lists.specs.Bits.{bits_of_bytes};
ghost use Rattle.xs_reading.specs.Packet.{field_at};

use xs_bits::BitReader;

/// A reader of the fields of a header.
pub fn fields_of(bytes: &[u8]) -> BitReader<'_>
    requires few { length bytes.now < 2 ^ 28 }
    ensures bits { result.bits ≡ bits_of_bytes bytes.now }
    ensures start { result.place ≡ 0 }
    ensures size { length (left result) ≡ 8 * length bytes.now }
{
    BitReader::new(bytes)
}

/// The next field, which is there.
pub fn next(input: &mut BitReader, width: u32) -> u32
    requires width { width ≤ 32 }
    requires there { width ≤ length (left input.old) }
    ensures field { result ≡ field_at input.old.bits input.old.place width }
    ensures fits { result < 2 ^ width }
    ensures moved { input.new.place ≡ input.old.place + width }
    ensures left { length (left input.new) + width ≡ length (left input.old) }
    ensures same { input.new.bits ≡ input.old.bits }
{
    input.get(width).unwrap()
}
