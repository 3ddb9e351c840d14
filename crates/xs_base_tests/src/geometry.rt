// How pictures are cut into bands, slices and packets.
ghost use Rattle.std.specs.Prelude.{◌≡◌, ◌<◌, IfOk};
ghost use Rattle.xs_params.specs.Accepted.{IsGeometry};
ghost use Rattle.xs_params.specs.Geometry.{blank_header, precinct_count};

use std::alloc::Global;
use std::test::Fail;
use xs_geometry::{BandKind, Geometry, PacketPlace, SliceRows, truncation};
use xs_io::Memory;
use xs_params::{Format, Header, Quant, Shape, Weight, default_weights};

// The geometry of a header of 8 bits, with default weights.
fn geometry(alloc: Global, shape: Shape, nlx: u8, nly: u8, hsl: u16) -> Result<Geometry, Memory>
    requires { IsGeometry (blank_header shape hsl nlx nly) }
    ensures { IfOk result (λ geometry. geometry ≡ blank_header shape hsl nlx nly) }
{
    let components = shape.format.components() as u8;
    let header = Header {
        lcod: 0,
        shape,
        hsl,
        bw: 20,
        fq: 8,
        colour: false,
        nlx,
        nly,
        long_heads: false,
        quant: Quant::DeadZone,
        signs_apart: false,
        run_mode: 0,
        weights: default_weights(alloc, nlx, nly, components)?,
    };
    Ok(Geometry::of(&header))
}

fn shape(width: u32, height: u32, format: Format) -> Shape
    ensures { result ≡ record { width = width; height = height; format = format; depth = 8 } }
{
    Shape {
        width,
        height,
        format,
        depth: 8,
    }
}

// Whether the bands have these widths and heights.
fn has_bands(geometry: &Geometry, sizes: &[(u32, u32)]) -> bool {
    if geometry.bands() as usize != sizes.len() {
        return false;
    }
    for band in 0..geometry.bands() {
        if sizes[band as usize] != (geometry.band_width(band), geometry.band_height(band)) {
            return false;
        }
    }
    true
}

// Whether the slices end before these precincts.
fn has_slices(geometry: &Geometry, ends: &[u32]) -> bool {
    if geometry.slices() as usize != ends.len() {
        return false;
    }
    let mut first = 0;
    for slice in 0..geometry.slices() {
        let precincts = geometry.slice_precincts(slice);
        if precincts != (first, ends[slice as usize]) {
            return false;
        }
        first = precincts.1;
    }
    first == geometry.precincts()
}

// Whether the precincts have so many packets.
fn has_packets(geometry: &Geometry, counts: &[u32]) -> bool {
    if geometry.precincts() as usize != counts.len() {
        return false;
    }
    for precinct in 0..geometry.precincts() {
        if geometry.packets(precinct) != counts[precinct as usize] {
            return false;
        }
    }
    true
}

// Whether the picture is cut so.
fn is_cut_so(geometry: &Geometry, sizes: &[(u32, u32)], ends: &[u32], counts: &[u32]) -> bool {
    has_bands(geometry, sizes) && has_slices(geometry, ends) && has_packets(geometry, counts)
}

// Whether the packets of a precinct have these first band types, numbers of band types and lines.
fn has_places(geometry: &Geometry, precinct: u32, places: &[(u32, u32, u32)]) -> bool
    requires { precinct < precinct_count geometry.now }
{
    if geometry.packets(precinct) as usize != places.len() {
        return false;
    }
    for number in 0..geometry.packets(precinct) {
        let (first_type, types, line) = places[number as usize];
        let place = PacketPlace {
            first_type,
            types,
            line,
        };
        if geometry.packet(precinct, number) != place {
            return false;
        }
    }
    true
}

#[test]
fn grey_picture_of_two_slices(rt: HostRuntime) -> Result<(), Fail> {
    let geometry = geometry(rt.alloc(), shape(32, 17, Format::Mono), 2, 2, 4)?;
    let sizes = [(8, 5), (8, 5), (8, 4), (8, 4), (16, 9), (16, 8), (16, 8)];
    assert!(rt; is_cut_so(&geometry, &sizes, &[4, 5], &[10, 10, 10, 10, 3]));
    assert!(rt; has_places(&geometry, 4, &[(0, 1, 4), (1, 1, 4), (4, 1, 8)]));
    Ok(())
}

#[test]
fn halved_components(rt: HostRuntime) -> Result<(), Fail> {
    let geometry = geometry(rt.alloc(), shape(35, 9, Format::C422), 3, 1, 2)?;
    let sizes = [
        (5, 5),
        (3, 5),
        (3, 5),
        (4, 5),
        (2, 5),
        (2, 5),
        (9, 5),
        (4, 5),
        (4, 5),
        (17, 5),
        (9, 5),
        (9, 5),
        (18, 4),
        (9, 4),
        (9, 4),
        (17, 4),
        (9, 4),
        (9, 4),
    ];
    assert!(rt; is_cut_so(&geometry, &sizes, &[2, 4, 5], &[4, 4, 4, 4, 2]));
    let kind = BandKind {
        component: 1,
        across: 2,
        down: 1,
        high_across: true,
        high_down: false,
    };
    assert!(rt; geometry.kind(7) == kind);
    Ok(())
}

#[test]
fn no_level_down(rt: HostRuntime) -> Result<(), Fail> {
    let geometry = geometry(rt.alloc(), shape(40, 4, Format::C444), 5, 0, 3)?;
    let sizes = [
        (2, 4),
        (2, 4),
        (2, 4),
        (1, 4),
        (1, 4),
        (1, 4),
        (2, 4),
        (2, 4),
        (2, 4),
        (5, 4),
        (5, 4),
        (5, 4),
        (10, 4),
        (10, 4),
        (10, 4),
        (20, 4),
        (20, 4),
        (20, 4),
    ];
    assert!(rt; is_cut_so(&geometry, &sizes, &[3, 4], &[1, 1, 1, 1]));
    Ok(())
}

#[test]
fn one_level_each_way(rt: HostRuntime) -> Result<(), Fail> {
    let geometry = geometry(rt.alloc(), shape(33, 5, Format::Mono), 1, 1, 7)?;
    let sizes = [(17, 3), (16, 3), (17, 2), (16, 2)];
    assert!(rt; is_cut_so(&geometry, &sizes, &[3], &[4, 4, 2]));
    Ok(())
}

#[test]
fn last_precincts_cut(rt: HostRuntime) -> Result<(), Fail> {
    let alloc = rt.alloc();
    for (height, counts) in [(5, [10, 3]), (6, [10, 5]), (7, [10, 8]), (8, [10, 10])] {
        let geometry = geometry(alloc, shape(32, height, Format::Mono), 2, 2, 1)?;
        assert!(rt; has_packets(&geometry, &counts));
    }
    Ok(())
}

#[test]
fn truncations(rt: HostRuntime) {
    let rows = [
        (6, 0, 2, 0, 4),
        (6, 1, 2, 0, 3),
        (6, 1, 2, 1, 4),
        (1, 9, 2, 1, 0),
        (255, 255, 255, 255, 0),
        (255, 0, 0, 0, 15),
    ];
    for (q, r, gain, priority, cut) in rows {
        assert!(rt; truncation(q, r, Weight { gain, priority }) == cut);
    }
}

// Whether a row of 8 is read again after it was written, those beside it stay, and a slice in the same memory is blank.
fn is_kept(alloc: Global) -> Result<bool, Memory> {
    let geometry = geometry(alloc, shape(32, 17, Format::Mono), 2, 2, 4)?;
    let row = [1, 2, 3, 4, 5, 6, 7, 8];
    let blank = [0; 8];
    let mut rows = SliceRows::blank(alloc, &geometry, 0)?;
    rows.put_row(0, 2, &row);
    let kept = rows.row(0, 1) == blank.as_slice()
        && rows.row(0, 2) == row.as_slice()
        && rows.row(0, 3) == blank.as_slice();
    rows.reset(&geometry, 1)?;
    Ok(kept && rows.lines(4) == (8, 9) && rows.row(0, 4) == blank.as_slice())
}

#[test]
fn rows_of_a_slice(rt: HostRuntime) -> Result<(), Fail> {
    assert!(rt; is_kept(rt.alloc())?);
    Ok(())
}
