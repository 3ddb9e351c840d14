// The header of a header unit that was read.
ghost use Rattle.std.specs.Prelude.{◌≡◌, None, IfSome};
ghost use Rattle.xs_grammar.specs.Header.{IsHeaderUnit};
ghost use Rattle.xs_markers.specs.Units.{header_unit_at, header_unit_fault};
ghost use Rattle.xs_params.specs.Accepted.{IsAccepted};
ghost use Rattle.xs_recv.specs.Sweeping.{IsGoodHead};

use xs_board::{HeadRead, Reading};
use xs_params::Header;

// Bytes that have no fault are a header unit.
pub(crate) fn spell_header(bytes: &[u8])
    ensures { header_unit_fault bytes.now ≡ None → IsHeaderUnit (header_unit_at bytes.now).0 bytes.now (header_unit_at bytes.now).1 }
{
    let _ = bytes;
}

// The header, where the unit has one.
pub(crate) fn header_of(head: &HeadRead) -> Option<&Header>
    ensures good { IfSome result (λ h. IsGoodHead head.now h.now) }
    ensures accepted { IfSome result (λ h. IsAccepted h.now) }
{
    spell_header(head.bytes.as_slice());
    match &head.reading {
        Reading::Good { header, length: _ } => Some(header),
        Reading::Bad(_) => None,
    }
}
