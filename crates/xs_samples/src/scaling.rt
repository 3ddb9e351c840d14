//! A sample is scaled to the numbers that the transforms work on, and back: docs/FORMAT.md, 'Samples, scaling and colour'.
ghost use Rattle.std.specs.Prelude.{◌≡◌, ◌≤◌, ◌<◌, ◌^◌, ◌*◌, ◌-◌, ℤ, pos, ◌+ℤ◌, ◌-ℤ◌};
ghost use Rattle.std.specs.Int.{int_shr};
ghost use Rattle.xs_signal.specs.Lines.{IsBelow};
ghost use Rattle.xs_signal.specs.Samples.{scale_in as scaled_in, scale_out as scaled_out, clamped};
ghost use Rattle.xs_layout.specs.Limits.{IsDepth, IsPrecision};

/// A sample of `depth` bits as a number of `bw` bits round 0.
pub fn scale_in(sample: u16, depth: u8, bw: u8) -> i64
    requires depth { IsDepth depth }
    requires bw { IsPrecision bw }
    requires sample { sample < 2 ^ depth }
    ensures { result ≡ scaled_in depth bw sample }
{
    raised(sample, depth, bw - depth) - power(bw - 1)
}

/// The sample of `depth` bits that is nearest to a number of `bw` bits round 0.
pub fn scale_out(value: i64, depth: u8, bw: u8) -> u16
    requires depth { IsDepth depth }
    requires bw { IsPrecision bw }
    requires value { IsBelow (2 ^ 50) value }
    ensures { result ≡ scaled_out depth bw value }
{
    let step = bw - depth;
    limited(lowered(centred(value, bw, step), step), depth)
}

// The sample times 2 to the step.
fn raised(sample: u16, depth: u8, step: u8) -> i64
    requires depth { depth ≤ 12 }
    requires step { step ≤ 12 }
    requires sample { sample < 2 ^ depth }
    ensures value { result ≡ pos (sample * 2 ^ step) }
    ensures small { IsBelow (2 ^ 24) result }
{
    (u64::from(sample) << step) as i64
}

// 2 to the k.
fn power(k: u8) -> i64
    requires { k ≤ 19 }
    ensures value { result ≡ pos (2 ^ k) }
    ensures small { IsBelow (2 ^ 20) result }
{
    1 << k
}

// The number raised by half of its range, and by half of a step to round.
fn centred(value: i64, bw: u8, step: u8) -> i64
    requires bw { IsPrecision bw }
    requires some { 1 ≤ step }
    requires few { step ≤ 12 }
    requires value { IsBelow (2 ^ 50) value }
    ensures { result ≡ value +ℤ pos (2 ^ (bw - 1)) +ℤ pos (2 ^ (step - 1)) }
{
    value + power(bw - 1) + power(step - 1)
}

fn lowered(value: i64, step: u8) -> i64
    requires { step ≤ 12 }
    ensures { result ≡ int_shr value step }
{
    value >> step
}

// The nearest number that `depth` bits hold.
fn limited(value: i64, depth: u8) -> u16
    requires depth { IsDepth depth }
    ensures { result ≡ clamped (2 ^ depth - 1) value }
{
    value.clamp(0, power(depth) - 1) as u16
}
