// What is handed of a slice.
use crate::block::RowBlock;

// The rows of a slice, and its edges where there are slices beside it.
#[derive(Drop)]
pub struct Handed {
    pub body: RowBlock,
    pub up: Option<RowBlock>,
    pub down: Option<RowBlock>,
}
