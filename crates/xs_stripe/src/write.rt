//! A stripe is written into a picture.
ghost use Rattle.std.specs.Prelude.{◌≡◌, ◌≢◌, ◌⊎◌, ℕ, ◌<◌, ◌≤◌, slice_index};
ghost use Rattle.xs_params.specs.Picture.{IsPicture, IsPlace, IsRow, sample_at, width_of};
ghost use Rattle.xs_stripe.specs.Stripe.{HasRow, stripe_row};
ghost use Rattle.xs_stripe.specs.Written.{HasLinesOf, IsRowFor, IsStripeFor};

use crate::stripe::Stripe;
use xs_params::Planes;

impl Stripe {
    /// Writes all its lines into a picture.
    pub fn write_to(&self, picture: &mut Planes)
        requires { IsStripeFor picture.old.shape self.now }
        ensures shape { picture.new.shape ≡ picture.old.shape }
        ensures lines { HasLinesOf picture.new self.now }
        ensures others { (component line column : ℕ) → IsPlace picture.old.shape component line column → (line < self.now.first) ⊎ (self.now.end ≤ line)
            → sample_at picture.new component line column ≡ sample_at picture.old component line column }
    {
        let (first, end) = self.lines();
        'lines: for line in first..end {
            put_line(self, line, picture);
        }
    }
}

// Writes a line of a stripe, in each component.
fn put_line(stripe: &Stripe, line: u32, picture: &mut Planes)
    requires stripe { IsStripeFor picture.old.shape stripe.now }
    requires line { (stripe.now.first ≤ line) × (line < stripe.now.end) }
    ensures shape { picture.new.shape ≡ picture.old.shape }
    ensures written { (component column : ℕ) → IsPlace picture.old.shape component line column → slice_index (stripe_row stripe.now component line) column ≡ sample_at picture.new component line column }
    ensures others { (component other column : ℕ) → IsPlace picture.old.shape component other column → other ≢ line → sample_at picture.new component other column ≡ sample_at picture.old component other column }
{
    let components = picture.shape().format.components();
    'components: for component in 0..components {
        put_row(stripe, component, line, picture);
    }
}

// Writes a line of a stripe in a component.
fn put_row(stripe: &Stripe, component: u32, line: u32, picture: &mut Planes)
    requires there { HasRow stripe.now component line }
    requires row { IsRow picture.old.shape component line }
    requires fits { IsRowFor picture.old.shape component (stripe_row stripe.now component line) }
    ensures shape { picture.new.shape ≡ picture.old.shape }
    ensures written { (column : ℕ) → column < width_of picture.old.shape component → slice_index (stripe_row stripe.now component line) column ≡ sample_at picture.new component line column }
    ensures others { (other row column : ℕ) → IsPlace picture.old.shape other row column → (other ≢ component) ⊎ (row ≢ line) → sample_at picture.new other row column ≡ sample_at picture.old other row column }
{
    known_picture(picture);
    picture.set_row(component, line, stripe.row(component, line));
}

// What the type of planes says of them.
fn known_picture(picture: &Planes)
    ensures { IsPicture picture.now }
{
    picture.shape();
}
