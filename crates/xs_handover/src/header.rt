// Headers are copied and compared.
ghost use Rattle.std.specs.Prelude.{◌≡◌, ◌↔◌, true, IfOk};
ghost use Rattle.xs_handover.specs.Headers.{HaveSameLayout};

use std::alloc::Global;
use xs_io::Memory;
use xs_params::{Header, Weights};

// The same header again.
pub(crate) fn copy_of(alloc: Global, header: &Header) -> Result<Header, Memory>
    ensures { IfOk result (λ copy. copy ≡ header.now) }
{
    Ok(Header {
        lcod: header.lcod,
        shape: header.shape,
        hsl: header.hsl,
        bw: header.bw,
        fq: header.fq,
        colour: header.colour,
        nlx: header.nlx,
        nly: header.nly,
        long_heads: header.long_heads,
        quant: header.quant,
        signs_apart: header.signs_apart,
        run_mode: header.run_mode,
        weights: Weights::from_slice(alloc, header.weights.as_slice())?,
    })
}

// Whether two headers cut a picture into the same bands and slices.
pub(crate) fn have_same_layout(header: &Header, other: &Header) -> bool
    ensures { (result ≡ true) ↔ HaveSameLayout header.now other.now }
{
    header.shape == other.shape
        && header.hsl == other.hsl
        && header.nlx == other.nlx
        && header.nly == other.nly
}
