// The segments of a header, one after the other.
ghost use Rattle.std.specs.Prelude.{◌≡◌, ◌+◌, ◌<◌, ◌≤◌, ◌^◌, false, IfOk, IsTrue, length};
ghost use Rattle.std.specs.Result.{result_err};
ghost use Rattle.xs_faults.specs.declared.HeadFault.TheVariants as HeadFault;
ghost use Rattle.xs_markers.specs.Reading.{is_end, segments_of, start_fault};
ghost use Rattle.xs_markers.specs.Seen.{IsLimitedSeen};
ghost use Rattle.xs_markers.specs.Segments.{segment_body, segment_code, code_fault, is_size, segment_kind, segment_end, segment_fault, size_fault, with_segment};

use crate::codes::{SLH, SOC};
use crate::kinds::Kind;
use crate::numbers::half_word_at;
use crate::seen::Seen;
use xs_faults::HeadFault;

pub fn truncated(bytes: &[u8]) -> HeadFault
    requires few { length bytes.now < 2 ^ 32 }
    ensures { result ≡ HeadFault.Truncated (length bytes.now) }
{
    HeadFault::Truncated {
        place: bytes.len() as u32,
    }
}

// Wants the marker of a codestream.
#[tactic(auto, unfolding(crate::specs::Reading::start_fault))]
fn want_start(bytes: &[u8]) -> Result<(), HeadFault>
    requires few { length bytes.now < 2 ^ 32 }
    ensures first { result_err result ≡ start_fault bytes.now }
{
    if bytes.len() < 2 {
        return Err(truncated(bytes));
    }
    let code = half_word_at(bytes, 0);
    if code != SOC {
        return Err(HeadFault::Marker { code, place: 0 });
    }
    Ok(())
}

// Whether the bytes end at a place, or a slice begins.
fn is_end(bytes: &[u8], place: usize) -> bool
    requires inside { place ≤ length bytes.now }
    requires few { length bytes.now < 2 ^ 32 }
    ensures { result ≡ is_end bytes.now place }
{
    bytes.len() <= place || place + 2 <= bytes.len() && half_word_at(bytes, place) == SLH
}

// The segment that its code names, if it may stand at a place.
#[tactic(auto, unfolding(crate::specs::Segments::code_fault))]
fn segment_kind(bytes: &[u8], place: usize, seen: &Seen) -> Result<Kind, HeadFault>
    requires inside { place ≤ length bytes.now }
    requires few { length bytes.now < 2 ^ 32 }
    ensures first { result_err result ≡ code_fault bytes.now place seen.now }
    ensures kind { IfOk result (λ kind. kind ≡ segment_kind bytes.now place) }
    ensures there { IfOk result (λ kind. place + 2 ≤ length bytes.now) }
{
    if bytes.len() < place + 2 {
        return Err(truncated(bytes));
    }
    let code = half_word_at(bytes, place);
    let kind = Kind::of(code);
    seen.want_kind(kind, code, place as u32)?;
    Ok(kind)
}

// The body of a segment of this kind.
#[tactic(auto, unfolding(crate::specs::Segments::size_fault))]
fn segment_body<'a>(
    bytes: &'a [u8],
    place: usize,
    kind: Kind,
    seen: &Seen,
) -> Result<&'a [u8], HeadFault>
    requires there { place + 2 ≤ length bytes.now }
    requires few { length bytes.now < 2 ^ 32 }
    requires kind { kind ≡ segment_kind bytes.now place }
    requires limited { IsLimitedSeen seen.now }
    ensures first { result_err result ≡ size_fault bytes.now place seen.now }
    ensures body { IfOk result (λ body. body.now ≡ segment_body bytes.now place) }
    ensures whole { IfOk result (λ body. place + 4 + length body.now ≤ length bytes.now) }
    ensures next { IfOk result (λ body. place + 4 + length body.now ≡ segment_end bytes.now place) }
    ensures size { IfOk result (λ body. IsTrue (is_size seen.now kind (length body.now + 2))) }
{
    if bytes.len() < place + 4 {
        return Err(truncated(bytes));
    }
    let size = half_word_at(bytes, place + 2);
    if !seen.is_size(kind, size) {
        return Err(HeadFault::Length {
            code: half_word_at(bytes, place),
            length: size,
        });
    }
    let end = place + 2 + size as usize;
    if bytes.len() < end {
        return Err(truncated(bytes));
    }
    Ok(&bytes[place + 4..end])
}

/// What is seen of a header that the bytes begin with, and where the bytes end or a slice begins.
pub fn segments_of(bytes: &[u8]) -> Result<(Seen, usize), HeadFault>
    requires few { length bytes.now < 2 ^ 32 }
    ensures seen { result ≡ segments_of bytes.now }
    ensures limited { IfOk result (λ found. IsLimitedSeen found.0) }
{
    want_start(bytes)?;
    let mut seen = Seen::nothing();
    let mut place = 2;
    'segments: while !is_end(bytes, place) {
        let kind = segment_kind(bytes, place, &seen)?;
        let body = segment_body(bytes, place, kind, &seen)?;
        seen = seen.with_segment(kind, body, place + 4)?;
        place += 4 + body.len();
    }
    Ok((seen, place))
}
