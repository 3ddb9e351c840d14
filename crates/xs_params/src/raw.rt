// Samples in raw pictures: a byte each, or a pair of bytes with the low one first.
ghost use Rattle.std.specs.Prelude.{◌≡◌, ◌+◌, ◌-◌, ◌%◌, ◌^◌, ◌≤◌, if◌then◌else◌, is_ok, nat_lt, length, position};
ghost use Rattle.std.specs.List.{list_any};
ghost use Rattle.std.specs.Result.{result_err};
ghost use Rattle.xs_layout.specs.Limits.{IsDepth};
ghost use Rattle.xs_params.specs.Picture.{first_deeper, pair_numbers, put_at, sample_size, samples_of};

/// Writes the samples of raw bytes from a place on. Where one has more bits than the depth, nothing is written, and the
/// first such is told, counted from 0.
pub fn put_raw(samples: &mut [u16], start: usize, depth: u8, bytes: &[u8]) -> Result<(), usize>
    requires depth { IsDepth depth }
    requires whole { length bytes.now % sample_size depth ≡ 0 }
    requires room { start + length (samples_of depth bytes.now) ≤ length samples.old }
    ensures first { result_err result ≡ first_deeper depth (samples_of depth bytes.now) }
    ensures put { samples.new ≡ (if is_ok result then put_at samples.old start (samples_of depth bytes.now) else samples.old) }
{
    if depth == 8 {
        put_bytes(samples, start, bytes);
        return Ok(());
    }
    let (pairs, _) = bytes.as_chunks::<2>();
    if let Some(place) = first_over(pairs, most_sample(depth)) {
        return Err(place);
    }
    put_pairs(samples, start, pairs);
    Ok(())
}

/// The greatest sample of a depth.
fn most_sample(depth: u8) -> u16
    requires { depth ≤ 12 }
    ensures { result ≡ 2 ^ depth - 1 }
{
    (1 << depth) - 1
}

/// The first sample over `most`. There is seldom one, so they are first looked at together.
fn first_over(pairs: &[[u8; 2]], most: u16) -> Option<usize>
    ensures { result ≡ position (nat_lt most) (pair_numbers pairs.now) }
{
    if !is_any_over(pairs, most) {
        return None;
    }
    pairs
        .iter()
        .position(|pair| u16::from_le_bytes(*pair) > most)
}

fn put_bytes(samples: &mut [u16], start: usize, bytes: &[u8])
    requires { start + length bytes.now ≤ length samples.old }
    ensures { samples.new ≡ put_at samples.old start bytes.now }
{
    fill_bytes(&mut samples[start..start + bytes.len()], bytes);
}

fn put_pairs(samples: &mut [u16], start: usize, pairs: &[[u8; 2]])
    requires { start + length pairs.now ≤ length samples.old }
    ensures { samples.new ≡ put_at samples.old start (pair_numbers pairs.now) }
{
    fill_pairs(&mut samples[start..start + pairs.len()], pairs);
}

fn fill_bytes(row: &mut [u16], bytes: &[u8])
    requires { length row.old ≡ length bytes.now }
    ensures { row.new ≡ bytes.now }
{
    'filling: for column in 0..row.len() {
        row[column] = u16::from(bytes[column]);
    }
}

fn fill_pairs(row: &mut [u16], pairs: &[[u8; 2]])
    requires { length row.old ≡ length pairs.now }
    ensures { row.new ≡ pair_numbers pairs.now }
{
    'filling: for column in 0..row.len() {
        row[column] = u16::from_le_bytes(pairs[column]);
    }
}

fn is_any_over(pairs: &[[u8; 2]], most: u16) -> bool
    ensures { result ≡ list_any (nat_lt most) (pair_numbers pairs.now) }
{
    let mut over = false;
    'looking: for pair in pairs {
        over |= u16::from_le_bytes(*pair) > most;
    }
    over
}
