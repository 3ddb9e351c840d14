// What becomes of a claim.
use xs_stripe::Stripe;

/// What became of the claim of a stripe.
#[derive(Drop)]
pub enum StripeClaim {
    /// The stripe. Where its rows were handed by another header than that of the claim, its samples mean nothing.
    Got(Stripe),
    /// The stripe's summary has only these words.
    NotWhole(u64),
    /// The stripe was claimed before.
    Gone,
}
