ghost use Rattle.std.specs.Prelude.{◌≡◌, ◌≤◌, [], ◌∷◌, ◌++◌, length, MatchOption, option_to_list, IfNone, IfSome};
ghost use Rattle.ipc_items.specs.FreeBlocks.{AreFreeBlocks};

use crate::string_list::StringList;
use ipc_words::limits::MAX_STRING_BYTES;
use std::alloc::Global;
use std::collections::VecDeque;
use std::marker::Model;

/// At most so many lists are kept for their memory.
pub const MAX_FREE_BLOCKS: usize = 64;

/// At most so many bytes are kept in all of these lists.
pub const MAX_FREE_BYTES: usize = 4 * MAX_STRING_BYTES;

/// So many lists are looked at for a block.
const LOOKS: u32 = 4;

/// Lists of strings whose memory is used again once nobody else has them, the oldest first; seen as
/// these lists.
///
/// There are at most [`MAX_FREE_BLOCKS`], of at most [`MAX_FREE_BYTES`] together.
#[derive(Drop)]
pub struct FreeBlocks {
    lists: VecDeque<StringList>,
    // How many bytes all lists have.
    bytes: usize,
}

impl Model for FreeBlocks {
    ghost use Rattle.std.specs.Prelude.{◌≡◌, ℕ, List};
    ghost use Rattle.ipc_items.specs.FreeBlocks.{AreFreeBlocks, bytes_of_lists};

    ghost Value = { List (List (List ℕ)) };

    ghost view = { λ f. f.lists.items };

    ghost invariant = { λ f. (f.bytes ≡ bytes_of_lists f.lists.items) × AreFreeBlocks f.lists.items };
}

impl FreeBlocks {
    /// No lists, with room for all. Where there is no memory for that, it never keeps one.
    pub fn new(alloc: Global) -> Self
        ensures { result ≡ [] }
    {
        let lists = match VecDeque::with_capacity(alloc, MAX_FREE_BLOCKS) {
            Ok(lists) => lists,
            Err(_) => VecDeque::new(alloc),
        };
        FreeBlocks { lists, bytes: 0 }
    }

    /// Keeps a list, or hands it back where there is no room for it. Takes no memory.
    pub fn keep(&mut self, list: StringList) -> Option<StringList>
        ensures result { MatchOption result (self.new ≡ self.old ++ list ∷ [])
            (λ back. (back ≡ list) × (self.new ≡ self.old)) }
        ensures within { AreFreeBlocks self.new }
    {
        let size = list.size() as usize;
        let count = self.lists.len();
        if count >= MAX_FREE_BLOCKS
            || count >= self.lists.capacity()
            || size > MAX_FREE_BYTES - self.bytes
        {
            return Some(list);
        }
        self.bytes += size;
        self.lists.push_back_reserved(list);
        None
    }

    /// Hands out the oldest list, which is kept no more; None where there is none.
    pub fn oldest(&mut self) -> Option<StringList>
        ensures given { self.old ≡ option_to_list result ++ self.new }
        ensures none { IfNone result (self.old ≡ []) }
    {
        let list = self.lists.pop_front()?;
        self.bytes -= list.size() as usize;
        Some(list)
    }

    /// A block of at least so many bytes, and of room for at most twice as many, from a list that
    /// nobody else has. It looks at the oldest lists only, at most four, and those that it leaves
    /// are the newest then.
    pub fn take(&mut self, wanted: usize) -> Option<Vec<u8>>
        ensures { IfSome result (λ block. wanted ≤ length block.items) }
    {
        for _ in 0..LOOKS {
            let list = self.oldest()?;
            match list.into_block_for(wanted) {
                Ok(block) => return Some(block),
                Err(list) => {
                    // there is room, since it was kept before
                    let _ = self.keep(list);
                }
            }
        }
        None
    }
}
