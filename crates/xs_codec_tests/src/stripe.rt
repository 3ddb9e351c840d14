// Stripes of a picture of two slices: 32 columns and 17 lines of 128, but the last line, which is 136.
ghost use Rattle.std.specs.Prelude.{◌≡◌, ◌<◌, ℕ, length, IfOk};
ghost use Rattle.xs_params.specs.declared.header.Header.{Header};
ghost use Rattle.xs_params.specs.Accepted.{IsAccepted};
ghost use Rattle.xs_params.specs.Geometry.{bands_of, slice_count};
ghost use Rattle.xs_rate.specs.Coefficients.{Rows};
ghost use Rattle.xs_geometry.specs.SliceLines.{ShowRows};
ghost use Rattle.xs_stripe.specs.Edges.{IsDownEdge, IsUpEdge, ShowsDown, ShowsUp};
ghost use Rattle.xs_stripe.specs.Stripe.{IsStripeOf};
ghost use Rattle.xs_codec_tests.specs.Made.{IsMade};

use crate::decoding::{Rule, slice_rows};
use std::alloc::Global;
use std::test::Fail;
use xs_geometry::{Geometry, SliceRows};
use xs_io::Memory;
use xs_params::{Format, Header, Quant, Shape, default_weights};
use xs_stripe::{Edge, Stripe, edges_of, synthesise_stripe};

/// The rows of a slice, and the edges that it hands up and down.
#[derive(Drop)]
struct Slice {
    rows: SliceRows,
    up: Edge,
    down: Edge,
}

fn header(alloc: Global) -> Result<Header, Memory>
    ensures accepted { IfOk result IsAccepted }
    ensures slices { IfOk result (λ header. slice_count header ≡ 2) }
    ensures bands { IfOk result (λ header. bands_of header ≡ 7) }
{
    Ok(Header {
        lcod: 0,
        shape: Shape {
            width: 32,
            height: 17,
            format: Format::Mono,
            depth: 8,
        },
        hsl: 4,
        bw: 20,
        fq: 8,
        colour: false,
        nlx: 2,
        nly: 2,
        long_heads: false,
        quant: Quant::DeadZone,
        signs_apart: false,
        run_mode: 0,
        weights: default_weights(alloc, 2, 2, 1)?,
    })
}

fn slice_of(alloc: Global, header: &Header, slice: u32) -> Result<Slice, Memory>
    requires accepted { IsAccepted header.now }
    requires slice { slice < slice_count header.now }
    ensures rows { IfOk result (λ made. IsMade header.now slice made.rows) }
    ensures up { IfOk result (λ made. IsUpEdge header.now slice made.up) }
    ensures down { IfOk result (λ made. IsDownEdge header.now slice made.down) }
    ensures shows_up { IfOk result (λ made. (rows : Rows) → ShowRows header.now rows made.rows → ShowsUp header.now slice made.up rows) }
    ensures shows_down { IfOk result (λ made. (rows : Rows) → ShowRows header.now rows made.rows → ShowsDown header.now slice made.down rows) }
{
    let geometry = Geometry::of(header);
    let rows = slice_rows(alloc, &geometry, slice, Rule::Beside)?;
    let edges = edges_of(alloc, &geometry, &rows)?;
    let (up, down) = edges;
    Ok(Slice { rows, up, down })
}

// The stripes of both slices.
fn two_stripes(
    alloc: Global,
    header: &Header,
    first: &Slice,
    second: &Slice,
) -> Result<(Stripe, Stripe), Memory>
    requires accepted { IsAccepted header.now }
    requires slices { slice_count header.now ≡ 2 }
    requires first { IsMade header.now 0 first.now.rows }
    requires second { IsMade header.now 1 second.now.rows }
    requires down { IsDownEdge header.now 0 first.now.down }
    requires up { IsUpEdge header.now 1 second.now.up }
    requires shows_up { (rows : Rows) → ShowRows header.now rows second.now.rows → ShowsUp header.now 1 second.now.up rows }
    requires shows_down { (rows : Rows) → ShowRows header.now rows first.now.rows → ShowsDown header.now 0 first.now.down rows }
    ensures { IfOk result (λ both. (rows : Rows) × IsStripeOf header.now 0 both.0 rows × IsStripeOf header.now 1 both.1 rows) }
{
    let top = synthesise_stripe(alloc, header, 0, None, &first.rows, Some(&second.up))?;
    let bottom = synthesise_stripe(alloc, header, 1, Some(&first.down), &second.rows, None)?;
    Ok((top, bottom))
}

// Whether all samples of a stripe are these.
fn has_samples(stripe: &Stripe, sample: u16) -> bool
    requires { (h : Header) × (slice : ℕ) × (rows : Rows) × IsStripeOf h slice stripe.now rows }
{
    let wanted = [sample; 32];
    let (first, end) = stripe.lines();
    for line in first..end {
        if stripe.row(0, line) != wanted.as_slice() {
            return false;
        }
    }
    true
}

fn has_row(edge: &Edge, band: u32, values: &[i32]) -> bool
    requires { band < length edge.now.rows }
{
    match edge.row(band) {
        Some(row) => row == values,
        None => false,
    }
}

// The first slice hands down its last rows of LH and HH alone, the second has none of these to hand down.
fn has_edges_down(down: &Edge, last: &Edge) -> bool
    requires down { length down.now.rows ≡ 7 }
    requires last { length last.now.rows ≡ 7 }
{
    has_row(down, 2, &[-64; 8])
        && has_row(down, 3, &[0; 8])
        && has_row(down, 5, &[-64; 16])
        && has_row(down, 6, &[0; 16])
        && down.row(0).is_none()
        && last.row(2).is_none()
        && last.row(6).is_none()
}

// The second slice hands up its first row of LL, and has none of LH.
fn has_edge_up(up: &Edge) -> bool
    requires { length up.now.rows ≡ 7 }
{
    has_row(up, 0, &[64; 8]) && up.row(2).is_none() && up.row(5).is_none()
}

fn are_stripes(alloc: Global) -> Result<bool, Memory> {
    let header = header(alloc)?;
    let first = slice_of(alloc, &header, 0)?;
    let second = slice_of(alloc, &header, 1)?;
    let both = two_stripes(alloc, &header, &first, &second)?;
    Ok(
        has_edges_down(&first.down, &second.down)
            && has_edge_up(&second.up)
            && both.0.lines() == (0, 16)
            && both.1.lines() == (16, 17)
            && has_samples(&both.0, 128)
            && has_samples(&both.1, 136),
    )
}

#[test]
fn stripes_of_two_slices(rt: HostRuntime) -> Result<(), Fail> {
    assert!(rt; are_stripes(rt.alloc())?);
    Ok(())
}
