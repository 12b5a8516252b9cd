//! The memory of long strings, which all connections use again.
use ipc_connection::Blocks;
use ipc_items::{FreeBlocks, MAX_FREE_BLOCKS, StringList};
use std::sync::{Mutex, Wait};

/// The blocks of a server, for one of its connections. Their lock is taken for long strings only,
/// and what makes way is dropped behind it.
#[derive(Drop)]
pub struct SharedBlocks<'a, R> {
    rt: &'a R,
    blocks: &'a Mutex<FreeBlocks>,
}

impl<'a, R: Wait> SharedBlocks<'a, R> {
    /// The blocks behind this lock.
    pub(crate) fn new(rt: &'a R, blocks: &'a Mutex<FreeBlocks>) -> Self {
        SharedBlocks { rt, blocks }
    }

    /// Keeps a list, or hands it back where there is no room for it.
    fn keep_once(&self, list: StringList) -> Option<StringList> {
        self.blocks.lock(self.rt).keep(list)
    }

    /// The oldest list, which makes way.
    fn oldest(&self) -> Option<StringList> {
        self.blocks.lock(self.rt).oldest()
    }
}

impl<'a, R: Wait> Blocks for SharedBlocks<'a, R> {
    fn take(&mut self, wanted: usize) -> Option<Vec<u8>> {
        self.blocks.lock(self.rt).take(wanted)
    }

    fn keep(&mut self, list: &StringList) {
        let mut next = list.share();
        for _ in 0..=MAX_FREE_BLOCKS {
            let Some(list) = next else {
                return;
            };
            next = self.keep_once(list);
            if next.is_none() || self.oldest().is_none() {
                return;
            }
        }
    }
}
