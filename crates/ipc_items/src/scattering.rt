ghost use Rattle.std.specs.Prelude.{◌≡◌, IfOk, map};
ghost use Rattle.std.specs.List.{flat_map};
ghost use Rattle.ipc_items.specs.Pieces.{pieces_of_all};
ghost use Rattle.ipc_items.specs.Placed.{placed};

use crate::buffer_list::BufferList;
use crate::placing::{Piece, Pieces, scatter};
use crate::string_list::StringList;
use std::alloc::{AllocError, Global};
use std::marker::Model;

/// The pieces in which all strings of a message go into their buffer strings, as far as they are
/// left to give, in order. Pieces without bytes are left out.
#[derive(Drop)]
pub struct Scattered<'a> {
    buffers: &'a BufferList,
    strings: &'a StringList,
    // how many strings were begun
    begun: usize,
    // what is left of the last of them
    pieces: Pieces<'a>,
}

impl<'a> Model for Scattered<'a> {
    ghost use Rattle.std.specs.Prelude.{List, ◌++◌, ◌≤◌, drop, length};
    ghost use Rattle.std.specs.List.{flat_map};
    ghost use Rattle.ipc_items.specs.Pieces.{PlacedBytes, pieces_of_all};

    ghost Value = { List PlacedBytes };

    ghost view = { λ s. s.pieces
        ++ flat_map (λ pieces. pieces) (drop s.begun (pieces_of_all s.buffers.now s.strings.now)) };

    ghost invariant = { λ s. s.begun ≤ length s.strings.now };
}

impl<'a> Scattered<'a> {
    /// All pieces of these strings, each of which goes into the buffer string at its place.
    pub fn new(buffers: &'a BufferList, strings: &'a StringList) -> Self
        ensures { result
            ≡ flat_map (λ pieces. pieces) (pieces_of_all buffers.now strings.now) }
    {
        Scattered {
            buffers,
            strings,
            begun: 0,
            pieces: scatter(&[], &[]),
        }
    }
}

impl<'a> Iterator for Scattered<'a> {
    ghost use Rattle.std.specs.Iterator.{YieldsFirstBy, item_count};
    ghost use Rattle.ipc_items.specs.Placed.{placed};

    type Item = Piece<'a>;

    ghost next_gives = { YieldsFirstBy placed (λ rest. rest) };

    ghost remaining = { item_count (λ rest. rest) };

    fn next(&mut self) -> Option<Piece<'a>> {
        while self.begun < self.strings.len() {
            if let Some(piece) = self.pieces.next() {
                return Some(piece);
            }
            let (Some(parts), Some(bytes)) = (
                self.buffers.get(self.begun),
                self.strings.get(self.begun),
            ) else {
                return None;
            };
            self.pieces = scatter(parts, bytes);
            self.begun += 1;
        }
        self.pieces.next()
    }
}

/// The pieces that [`Scattered`] gives, in a list. The error: memory was refused.
pub fn scatter_all<'a>(
    alloc: Global,
    buffers: &'a BufferList,
    strings: &'a StringList,
) -> Result<Vec<Piece<'a>>, AllocError>
    ensures { IfOk result (λ pieces. map placed pieces.items
        ≡ flat_map (λ placed. placed) (pieces_of_all buffers.now strings.now)) }
{
    let mut pieces = Vec::new(alloc);
    pieces.extend(Scattered::new(buffers, strings))?;
    Ok(pieces)
}
