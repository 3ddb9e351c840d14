// Fields of bits, each a width in bits and a value.
ghost use Rattle.std.specs.Prelude.{◌≡◌, ◌++◌, IfOk, OnOk};
ghost use Rattle.xs_lists.specs.Bits.{bits_of_fields};
ghost use Rattle.xs_grammar.specs.Coded.{field_bytes};
ghost use Rattle.xs_markers.specs.Fields.{AreFields};

use std::alloc::Global;
use xs_bits::BitWriter;
use xs_io::{Memory, Octets};

// Writes the fields one after the other.
fn put_fields(out: &mut BitWriter, fields: &[(u32, u32)]) -> Result<(), Memory>
    requires fields { AreFields fields.now }
    ensures bits { OnOk result (out.new.bits ≡ out.old.bits ++ bits_of_fields fields.now) }
{
    'putting: for at in 0..fields.len() {
        let (width, value) = fields[at];
        out.reserve(width as usize)?;
        out.put(value, width);
    }
    Ok(())
}

/// The bytes of fields, the last one filled up with zeros.
pub fn bytes_of_fields(alloc: Global, fields: &[(u32, u32)]) -> Result<Octets, Memory>
    requires fields { AreFields fields.now }
    ensures packed { IfOk result (λ bytes. bytes ≡ field_bytes fields.now) }
{
    let mut out = BitWriter::new(alloc);
    put_fields(&mut out, fields)?;
    out.reserve(7)?;
    out.align();
    Ok(out.finish())
}
