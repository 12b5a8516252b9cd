//! Memory that was used before.
use ipc_items::StringList;

/// Gives memory for long payloads that was used before.
pub trait Blocks {
    /// A block of at least so many bytes, if there is one. Nothing that stands in it is read.
    fn take(&mut self, wanted: usize) -> Option<Vec<u8>>;

    /// These strings were heard. Their memory may be used again once nobody else has them.
    fn keep(&mut self, list: &StringList);
}

/// No memory that was used before: new memory is taken for each payload.
#[derive(Drop)]
pub struct NoBlocks;

impl Blocks for NoBlocks {
    fn take(&mut self, _wanted: usize) -> Option<Vec<u8>> {
        None
    }

    fn keep(&mut self, _list: &StringList) {}
}
