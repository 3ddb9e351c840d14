//! The rows of the bands of each component of a picture.
ghost use Rattle.std.specs.Prelude.{◌≡◌, ◌<◌, ◌≤◌, ◌++◌, ◌∷◌, [], true, length, slice_index_or, OnOk};
ghost use Rattle.xs_geometry.specs.Sides.{type_of};
ghost use Rattle.xs_picture.specs.Analysed.{rows_by_type, rows_of_component, rows_of_kind};

use std::alloc::Global;
use std::marker::Model;
use xs_geometry::BandKind;
use xs_io::Memory;
use xs_splitter::Splitter;

/// For each component its splitter, after the last row.
#[derive(Drop)]
pub struct PictureBands {
    components: Vec<Splitter>,
}

impl Model for PictureBands {
    ghost use Rattle.std.specs.Prelude.{List};
    ghost use Rattle.xs_splitter.specs.declared.splitter.Splitter.{Splitter};

    ghost Value = { List Splitter };

    ghost view = { λ s. s.components.items };
}

impl PictureBands {
    /// Those of no component.
    pub fn new(alloc: Global) -> PictureBands
        ensures { result ≡ [] }
    {
        PictureBands {
            components: Vec::new(alloc),
        }
    }

    /// Adds those of the next component.
    pub fn push(&mut self, component: Splitter) -> Result<(), Memory>
        ensures { OnOk result (self.new ≡ self.old ++ component ∷ []) }
    {
        add(&mut self.components, component)
    }

    /// A row of a band, by the band's kind and the line.
    pub fn row(&self, kind: BandKind, line: u32) -> &[i32]
        requires component { kind.component < length self.now }
        requires across { kind.high_across ≡ true → 1 ≤ kind.across }
        requires down { kind.high_down ≡ true → 1 ≤ kind.down }
        requires line { line < length (rows_of_kind self.now kind) }
        ensures { result.now ≡ slice_index_or (rows_of_kind self.now kind) line [] }
    {
        band_row(self.component(kind.component), kind, line as usize)
    }

    fn component(&self, component: u8) -> &Splitter
        requires { component < length self.now }
        ensures { rows_by_type result.now ≡ rows_of_component self.now component }
    {
        &self.components[component as usize]
    }
}

fn add(components: &mut Vec<Splitter>, component: Splitter) -> Result<(), Memory>
    ensures { OnOk result (components.new.items ≡ components.old.items ++ component ∷ []) }
{
    components.push(component).map_err(|_| Memory)
}

/// A row of a band of a component, by the band's kind and the line.
pub fn band_row(component: &Splitter, kind: BandKind, line: usize) -> &[i32]
    requires across { kind.high_across ≡ true → 1 ≤ kind.across }
    requires down { kind.high_down ≡ true → 1 ≤ kind.down }
    requires line { line < length (rows_by_type component.now (type_of kind)) }
    ensures { result.now ≡ slice_index_or (rows_by_type component.now (type_of kind)) line [] }
{
    if kind.high_down {
        let level = kind.down as usize - 1;
        if kind.high_across {
            component.hh_row(level, line)
        } else {
            component.lh_row(level, line)
        }
    } else if kind.high_across {
        component.hl_row(kind.across as usize - 1, line)
    } else {
        component.lowest_row(line)
    }
}
