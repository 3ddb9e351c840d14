//! Samples and coefficients become the numbers that the transforms work on, and these samples, a row at a time.
ghost use Rattle.std.specs.Prelude.{◌≡◌, ℕ, ℤ, pos, ◌≤◌, ◌<◌, ◌^◌, ◌*◌, ◌-◌, ◌+ℤ◌, ◌-ℤ◌, ◌*ℤ◌, All, length, slice_index};
ghost use Rattle.std.specs.Int.{int_shr};
ghost use Rattle.xs_signal.specs.Lines.{AllBelow, IsBelow, Shows, entries_of};
ghost use Rattle.xs_signal.specs.Samples.{scale_in as scaled_in, scale_out as scaled_out, clamped};
ghost use Rattle.xs_layout.specs.Limits.{IsDepth, IsPrecision};
ghost use Rattle.xs_signal.specs.Fold.{IsFraction};

/// Samples of `depth` bits as numbers of `bw` bits round 0.
pub fn scale_row_in(samples: &[u16], depth: u8, bw: u8, row: &mut [i32])
    requires depth { IsDepth depth }
    requires bw { IsPrecision bw }
    requires width { length samples.now ≡ length row.old }
    requires samples { (k : ℕ) → k < length samples.now → slice_index samples.now k < 2 ^ depth }
    ensures { (k : ℕ) → k < length row.new → entries_of row.new k ≡ scaled_in depth bw (slice_index samples.now k) }
{
    let step = bw - depth;
    let centre = power(bw - 1);
    for k in 0..row.len() {
        row[k] = raised(samples[k], depth, step) - centre;
    }
}

/// Numbers of `bw` bits round 0 as the nearest samples of `depth` bits.
pub fn scale_row_out(row: &[i32], depth: u8, bw: u8, samples: &mut [u16])
    requires depth { IsDepth depth }
    requires bw { IsPrecision bw }
    requires width { length row.now ≡ length samples.old }
    requires small { AllBelow (2 ^ 29) (entries_of row.now) }
    ensures scaled { (k : ℕ) → k < length samples.new → slice_index samples.new k ≡ scaled_out depth bw (entries_of row.now k) }
    ensures small { All (λ sample. sample < 2 ^ depth) samples.new }
{
    for k in 0..samples.len() {
        samples[k] = scale_entry_out(row[k], depth, bw);
    }
}

/// Coefficients times 2 to the fraction: their full precision.
pub fn raise_row(row: &[i32], fraction: u8, raised: &mut [i32])
    requires fraction { IsFraction fraction }
    requires width { length row.now ≡ length raised.old }
    requires small { AllBelow (2 ^ 23) (λ k. entries_of row.now k *ℤ pos (2 ^ fraction)) }
    ensures { Shows raised.new (λ k. entries_of row.now k *ℤ pos (2 ^ fraction)) }
{
    for k in 0..raised.len() {
        raised[k] = raise_entry(row[k], fraction);
    }
}

// A coefficient times 2 to the fraction.
fn raise_entry(number: i32, fraction: u8) -> i32
    requires fraction { IsFraction fraction }
    requires small { IsBelow (2 ^ 23) (number *ℤ pos (2 ^ fraction)) }
    ensures { result ≡ (number *ℤ pos (2 ^ fraction)) }
{
    number << fraction
}

// The nearest sample of `depth` bits.
fn scale_entry_out(value: i32, depth: u8, bw: u8) -> u16
    requires depth { IsDepth depth }
    requires bw { IsPrecision bw }
    requires value { IsBelow (2 ^ 29) value }
    ensures { result ≡ scaled_out depth bw value }
{
    let step = bw - depth;
    limited(lowered(centred(value, bw, step), step), depth)
}

// The number raised by half of its range, and by half of a step to round.
fn centred(value: i32, bw: u8, step: u8) -> i32
    requires bw { IsPrecision bw }
    requires some { 1 ≤ step }
    requires few { step ≤ 12 }
    requires value { IsBelow (2 ^ 29) value }
    ensures { result ≡ value +ℤ pos (2 ^ (bw - 1)) +ℤ pos (2 ^ (step - 1)) }
{
    value + power(bw - 1) + power(step - 1)
}

fn lowered(value: i32, step: u8) -> i32
    requires { step ≤ 12 }
    ensures { result ≡ int_shr value step }
{
    value >> step
}

// The nearest number that `depth` bits hold.
fn limited(value: i32, depth: u8) -> u16
    requires depth { IsDepth depth }
    ensures { result ≡ clamped (2 ^ depth - 1) value }
{
    value.max(0).min(power(depth) - 1) as u16
}

// The sample times 2 to the step.
fn raised(sample: u16, depth: u8, step: u8) -> i32
    requires depth { depth ≤ 12 }
    requires step { step ≤ 12 }
    requires sample { sample < 2 ^ depth }
    ensures value { result ≡ pos (sample * 2 ^ step) }
    ensures small { IsBelow (2 ^ 24) result }
{
    (u32::from(sample) << step) as i32
}

// 2 to the k.
fn power(k: u8) -> i32
    requires { k ≤ 19 }
    ensures value { result ≡ pos (2 ^ k) }
    ensures small { IsBelow (2 ^ 20) result }
{
    1 << k
}
