//! The transforms of the codec as definitions: samples, colour, wavelet, quantisers. The functions here have no body:
//! each names a law or worked examples of the definitions in `specs/`.
#![tactic(auto)]

ghost use Rattle.xs_signal.specs.Colour.{ColourUndone};
ghost use Rattle.xs_signal.specs.Samples.{ScaleOutUndoesIn};
ghost use Rattle.xs_signal.specs.Quantiser.{ShiftSumEnds, QuantisedFits, DequantisedFits};
ghost use Rattle.xs_signal.specs.Fold.{FoldFits};
ghost use Rattle.xs_signal.specs.Picture.{PictureBack};
ghost use Rattle.xs_signal.specs.Stripe.{StripeNear, SplitsWhereLarge};
ghost use Rattle.xs_signal.specs.Wavelet.{LineUndone, LineNear, HighOfMirrored, PlaneUndone, SizesAgree};
ghost use Rattle.xs_signal.specs.Worked.{LineSplit, LineJoined, ColourTurned, Quantised, Folded, Scaled};

/// A line of four samples is split and put together again.
pub fn worked_line()
    ensures split { LineSplit }
    ensures joined { LineJoined }
{}

/// A colour there and back.
pub fn worked_colour()
    ensures { ColourTurned }
{}

/// A magnitude by both quantisers, there and back.
pub fn worked_quantisers()
    ensures { Quantised }
{}

/// A coefficient that is too great, one that rounds away from zero and one that vanishes.
pub fn worked_fold()
    ensures { Folded }
{}

/// The greatest sample there and back, and a number that is past it.
pub fn worked_samples()
    ensures { Scaled }
{}

/// Each colour transform undoes the other.
pub fn colour_undone()
    ensures { ColourUndone }
{}

/// A sample comes back from its scaled number.
pub fn scale_out_undoes_in()
    ensures { ScaleOutUndoesIn }
{}

/// A sum of shifts has no term past the bits of its first.
pub fn shift_sum_ends()
    ensures { ShiftSumEnds }
{}

/// Splitting a line and joining its parts undo each other, whatever its length.
pub fn line_undone()
    ensures { LineUndone }
{}

/// Splitting a plane and joining its bands undo each other, whatever its size and levels.
pub fn plane_undone()
    ensures { PlaneUndone }
{}

/// The parts of a line that is split level by level have the sizes of the band geometry.
pub fn sizes_agree()
    ensures { SizesAgree }
{}

/// A stretch of a line looks no further than the entries beside it.
pub fn line_near()
    ensures { LineNear }
{}

/// What is sent for a magnitude has no more planes than are sent.
pub fn quantised_fits()
    ensures { QuantisedFits }
{}

/// What stands for a number that was sent has no more planes than its group.
pub fn dequantised_fits()
    ensures { DequantisedFits }
{}

/// What is coded of a coefficient has at most 15 bits.
pub fn fold_fits()
    ensures { FoldFits }
{}

/// Where nothing is rounded, a picture comes back from its bands.
pub fn picture_back()
    ensures { PictureBack }
{}

/// A stripe that knows the nearest rows of its neighbours has the rows of the whole plane.
pub fn stripe_near()
    ensures { StripeNear }
{}

/// The high part in the words of the mirrored line.
pub fn high_of_mirrored()
    ensures { HighOfMirrored }
{}

/// A plane with columns and rows for each split has two samples at each step.
pub fn splits_where_large()
    ensures { SplitsWhereLarge }
{}
