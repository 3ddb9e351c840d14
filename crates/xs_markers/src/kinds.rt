// What the codes of a header stand for.
ghost use Rattle.std.specs.Prelude.{◌≡◌};
ghost use Rattle.xs_markers.specs.Segments.{kind_of};

use crate::codes::{CAP, CDT, COM, CRG, CTS, CWD, NLT, PIH, WGT};

/// What a code stands for: docs/FORMAT.md, 'Codestream layout'.
#[derive(Clone, Copy)]
pub enum Kind {
    /// The picture header (PIH).
    Picture,
    /// The table of components (CDT).
    Components,
    /// The table of weights (WGT).
    Weights,
    /// A segment that is stepped over (CAP, COM, CRG).
    SteppedOver,
    /// A segment that is not supported (NLT, CWD, CTS).
    Unsupported,
    /// Any other.
    Unknown,
}

impl Kind {
    #[tactic(auto, unfolding(crate::specs::Segments::kind_of))]
    pub fn of(code: u16) -> Kind
        ensures kind { result ≡ kind_of code }
    {
        match code {
            PIH => Kind::Picture,
            CDT => Kind::Components,
            WGT => Kind::Weights,
            CAP | COM | CRG => Kind::SteppedOver,
            NLT | CWD | CTS => Kind::Unsupported,
            _ => Kind::Unknown,
        }
    }
}
