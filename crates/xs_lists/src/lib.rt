//! Words and laws on lists, bits and bytes: what contracts of the codec speak of, and no code.
#![tactic(auto)]

ghost use Rattle.xs_lists.specs.Laws.{BitsSplit};
ghost use Rattle.xs_lists.specs.Packing.{BytesByBits, PackedBits, PackedBytes};

/// The high bits of a number are those of the number without its low bits.
pub fn bits_split()
    ensures { BitsSplit }
{}

/// The bits of packed bytes are those that were packed, and zeros up to the end of the last byte.
pub fn packed_bits()
    ensures { PackedBits }
{}

/// Packed bits are bytes.
pub fn packed_bytes()
    ensures { PackedBytes }
{}

/// Bytes are told by their bits.
pub fn bytes_by_bits()
    ensures { BytesByBits }
{}
