// The fields of a table of components.
ghost use Rattle.std.specs.Prelude.{◌≡◌, ◌+◌, ◌*◌, ◌<◌, IfOk, length};
ghost use Rattle.std.specs.Result.{result_err};
ghost use Rattle.xs_markers.specs.Segments.{shape_of};
ghost use Rattle.xs_markers.specs.Seen.{IsLimited};
ghost use Rattle.xs_markers.specs.Values.{across_at, component_rules, depth_at, down_at, fields_fault, format_of, is_across, narrow_rule, table_rules};

use crate::numbers::field;
use crate::picture::PictureFields;
use crate::rules::{FieldRule, exactly, first_refused, tested};
use xs_faults::{HeadFault, HeadField};
use xs_layout::{ceil_div, is_depth};
use xs_params::{Format, Shape};

fn depth_at(body: &[u8], component: usize) -> u8
    requires there { 2 * component < length body.now }
    ensures { result ≡ depth_at body.now component }
{
    body[2 * component]
}

fn across_at(body: &[u8], component: usize) -> u8
    requires there { 2 * component + 1 < length body.now }
    ensures { result ≡ across_at body.now component }
{
    field(body[2 * component + 1], 4, 4)
}

fn down_at(body: &[u8], component: usize) -> u8
    requires there { 2 * component + 1 < length body.now }
    ensures { result ≡ down_at body.now component }
{
    field(body[2 * component + 1], 4, 0)
}

// Whether a component may have its sampling across.
fn is_across(picture: &PictureFields, body: &[u8], component: usize) -> bool
    requires there { 2 * component + 1 < length body.now }
    ensures { result ≡ is_across picture.now body.now component }
{
    let across = across_at(body, component);
    match component {
        0 => across == 1,
        1 => across == 1 || across == 2 && picture.cpih == 0,
        _ => across == across_at(body, 1),
    }
}

// The values that the fields of a component may have, in the order in which they are asked.
fn component_rules(picture: &PictureFields, body: &[u8], component: usize) -> [FieldRule; 3]
    requires there { 2 * component + 1 < length body.now }
    ensures rules { result ≡ component_rules picture.now body.now component }
{
    let depth = depth_at(body, component);
    let across = across_at(body, component);
    let down = down_at(body, component);
    [
        tested(
            HeadField::Bc,
            is_depth(depth) && depth == depth_at(body, 0),
            u32::from(depth),
        ),
        tested(
            HeadField::Sx,
            is_across(picture, body, component),
            u32::from(across),
        ),
        exactly(HeadField::Sy, 1, u32::from(down)),
    ]
}

fn format_of(picture: &PictureFields, body: &[u8]) -> Format
    requires size { length body.now ≡ 2 * picture.now.nc }
    ensures { result ≡ format_of picture.now body.now }
{
    if picture.nc != 3 {
        Format::Mono
    } else if across_at(body, 1) == 2 {
        Format::C422
    } else {
        Format::C444
    }
}

// What the columns of the narrowest component may be.
fn narrow_rule(picture: &PictureFields, body: &[u8]) -> FieldRule
    requires limited { IsLimited picture.now }
    requires size { length body.now ≡ 2 * picture.now.nc }
    ensures { result ≡ narrow_rule picture.now body.now }
{
    let sampling = match format_of(picture, body) {
        Format::C422 => 2,
        Format::Mono | Format::C444 => 1,
    };
    let columns = ceil_div(u32::from(picture.wf), sampling);
    tested(HeadField::Narrow, 1 << picture.nlx <= columns, columns)
}

// Refuses the first field of the components whose value is refused.
fn first_refused_component(picture: &PictureFields, body: &[u8]) -> Result<(), HeadFault>
    requires limited { IsLimited picture.now }
    requires size { length body.now ≡ 2 * picture.now.nc }
    ensures first { result_err result ≡ fields_fault (table_rules picture.now body.now) }
{
    'components: for component in 0..usize::from(picture.nc) {
        first_refused(&component_rules(picture, body, component))?;
    }
    first_refused(&[narrow_rule(picture, body)])
}

/// The shape of the picture, by its header and the body of the table of components, if none of the values in the table is
/// refused.
pub fn read_shape(picture: &PictureFields, body: &[u8]) -> Result<Shape, HeadFault>
    requires limited { IsLimited picture.now }
    requires size { length body.now ≡ 2 * picture.now.nc }
    ensures first { result_err result ≡ fields_fault (table_rules picture.now body.now) }
    ensures shape { IfOk result (λ shape. shape ≡ shape_of picture.now body.now) }
{
    first_refused_component(picture, body)?;
    Ok(Shape {
        width: u32::from(picture.wf),
        height: u32::from(picture.hf),
        format: format_of(picture, body),
        depth: depth_at(body, 0),
    })
}
