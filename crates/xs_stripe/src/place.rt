//! Where rows stand in one block of memory.
ghost use Rattle.std.specs.Prelude.{◌≡◌, ◌++◌, ◌∷◌, [], IfOk, OnErr};

use xs_io::Memory;

/// The place of a row's first number, and one past the last.
#[derive(Clone, Copy)]
pub struct RowPlace {
    pub start: usize,
    pub end: usize,
}

pub(crate) fn add_place(places: &mut Vec<RowPlace>, place: RowPlace) -> Result<(), Memory>
    ensures added { IfOk result (λ _. places.new.items ≡ places.old.items ++ place ∷ []) }
    ensures refused { OnErr result (places.new.items ≡ places.old.items) }
{
    places.push(place).map_err(|_| Memory)
}
