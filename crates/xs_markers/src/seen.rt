// What was seen of a header.
ghost use Rattle.std.specs.Prelude.{◌≡◌, ◌+◌, ◌*◌, IfOk, IfSome, IsTrue, Some, is_none, length};
ghost use Rattle.std.specs.Result.{result_err};
ghost use Rattle.xs_faults.specs.declared.HeadFault.TheVariants as HeadFault;
ghost use Rattle.xs_grammar.specs.Header.{pih_code};
ghost use Rattle.xs_lists.specs.First.{when};
ghost use Rattle.xs_markers.specs.Seen.{IsLimitedSeen};
ghost use Rattle.xs_markers.specs.Segments.{is_size, kind_fault, nothing_seen, picture_fields_of, rules_of, with_segment};
ghost use Rattle.xs_markers.specs.declared.kinds.Kind.TheVariants as Kind;
ghost use Rattle.xs_markers.specs.Values.{fields_fault, picture_rules};

use crate::codes::PIH;
use crate::components::read_shape;
use crate::kinds::Kind;
use crate::picture::PictureFields;
use xs_faults::HeadFault;
use xs_params::Shape;

/// What was seen of a header: the picture header; the shape, which it gives together with the table of components; the
/// place of the first of the weights.
#[derive(Clone, Copy)]
pub struct Seen {
    pub picture: Option<PictureFields>,
    pub shape: Option<Shape>,
    pub weights: Option<usize>,
}

impl Seen {
    pub fn nothing() -> Seen
        ensures nothing { result ≡ nothing_seen }
    {
        Seen {
            picture: None,
            shape: None,
            weights: None,
        }
    }

    /// Refuses a segment that may not stand at this place.
    pub fn want_kind(&self, kind: Kind, code: u16, place: u32) -> Result<(), HeadFault>
        ensures first { result_err result ≡ kind_fault self.now kind code place }
    {
        match kind {
            Kind::Picture => want_once(self.picture.is_some(), code),
            Kind::Components => {
                want_once(self.shape.is_some(), code)?;
                self.want_picture()
            }
            Kind::Weights => {
                want_once(self.weights.is_some(), code)?;
                self.want_picture()
            }
            Kind::SteppedOver => Ok(()),
            Kind::Unsupported => Err(HeadFault::Segment { code, place }),
            Kind::Unknown => Err(HeadFault::Marker { code, place }),
        }
    }

    fn want_picture(&self) -> Result<(), HeadFault>
        ensures first { result_err result ≡ when (is_none self.now.picture) (HeadFault.Absent pih_code) }
    {
        if self.picture.is_none() {
            return Err(HeadFault::Absent { code: PIH });
        }
        Ok(())
    }

    /// Whether a segment may have this length, which counts itself.
    pub fn is_size(&self, kind: Kind, size: u16) -> bool
        requires limited { IsLimitedSeen self.now }
        ensures { result ≡ is_size self.now kind size }
    {
        match (kind, self.picture) {
            (Kind::Picture, _) => size == 26,
            (Kind::Components, Some(picture)) => size == 2 + 2 * u16::from(picture.nc),
            (Kind::Weights, Some(picture)) => size == 2 + 2 * picture.bands(),
            (Kind::SteppedOver, _) => size >= 2,
            _ => false,
        }
    }

    /// With one segment more, whose body stands at a place, if none of the values in it is refused.
    #[tactic(auto, using(crate::proofs::Refusals::no_rules))]
    pub fn with_segment(&self, kind: Kind, body: &[u8], at: usize) -> Result<Seen, HeadFault>
        requires limited { IsLimitedSeen self.now }
        requires size { IsTrue (is_size self.now kind (length body.now + 2)) }
        ensures first { result_err result ≡ fields_fault (rules_of self.now kind body.now) }
        ensures seen { IfOk result (λ seen. seen ≡ with_segment self.now kind body.now at) }
        ensures limited { IfOk result IsLimitedSeen }
    {
        match kind {
            Kind::Picture => self.with_picture(body),
            Kind::Components => self.with_components(body),
            Kind::Weights => Ok(Seen {
                weights: Some(at),
                ..*self
            }),
            Kind::SteppedOver | Kind::Unsupported | Kind::Unknown => Ok(*self),
        }
    }

    fn with_picture(&self, body: &[u8]) -> Result<Seen, HeadFault>
        requires size { length body.now ≡ 24 }
        ensures first { result_err result ≡ fields_fault (picture_rules (picture_fields_of body.now)) }
        ensures seen { IfOk result (λ seen. seen ≡ record self.now { picture = Some (picture_fields_of body.now) }) }
        ensures limited { IfOk result IsLimitedSeen }
    {
        let picture = PictureFields::read(body)?;
        Ok(Seen {
            picture: Some(picture),
            ..*self
        })
    }

    #[tactic(auto, using(crate::proofs::Refusals::no_rules))]
    fn with_components(&self, body: &[u8]) -> Result<Seen, HeadFault>
        requires limited { IsLimitedSeen self.now }
        requires size { IfSome self.now.picture (λ p. length body.now ≡ 2 * p.nc) }
        ensures first { result_err result ≡ fields_fault (rules_of self.now Kind.Components body.now) }
        ensures seen { IfOk result (λ seen. seen ≡ with_segment self.now Kind.Components body.now 0) }
        ensures limited { IfOk result IsLimitedSeen }
    {
        let shape = match self.picture {
            Some(picture) => Some(read_shape(&picture, body)?),
            None => None,
        };
        Ok(Seen { shape, ..*self })
    }
}

fn want_once(before: bool, code: u16) -> Result<(), HeadFault>
    ensures first { result_err result ≡ when before (HeadFault.Twice code) }
{
    if before {
        return Err(HeadFault::Twice { code });
    }
    Ok(())
}
