//! What a codestream decodes to: definitions, and laws that hold of them.
#![tactic(auto)]

ghost use Rattle.xs_decoding.specs.Laws.{BandsByType, DecodedWithin};

/// The plane of each band is found by the band's type.
pub fn bands_by_type()
    ensures { BandsByType }
{}

/// The picture of rows of coefficients depends on them within their bands alone.
pub fn decoded_within()
    ensures { DecodedWithin }
{}
