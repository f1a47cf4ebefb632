//! One loadable segment of a program.

ghost use Rattle.std.specs.Prelude.{◌≡◌, List, ℕ, IfOk};

use std::alloc::{AllocError, Global};
use std::marker::Model;

/// What a program may do with the bytes of a page.
#[derive(Clone, Copy, Debug, PartialEq, Eq)]
pub struct Rights {
    /// PF_R: its bytes may be loaded.
    pub readable: bool,
    /// PF_W: its bytes may be stored to.
    pub writable: bool,
    /// PF_X: its words may be fetched as instructions.
    pub executable: bool,
}

/// The bytes that a file gives for a segment.
#[derive(Debug, Drop)]
pub struct Content {
    items: Vec<u8>,
}

impl Model for Content {
    ghost Value = { List ℕ };

    ghost view = { λ c. c.items.items };
}

impl Content {
    /// A copy of the bytes.
    pub(crate) fn from_slice(alloc: Global, bytes: &[u8]) -> Result<Self, AllocError>
        ensures { IfOk result (λ c. c ≡ bytes.now) }
    {
        Ok(Content {
            items: Vec::from_slice(alloc, bytes)?,
        })
    }

    /// The bytes, the one at the segment's address first.
    pub fn bytes(&self) -> &[u8]
        ensures { result.now ≡ self.now }
    {
        self.items.as_slice()
    }
}

/// A PT_LOAD segment: `size` bytes from `address` on. First come the bytes of the file, and the others are
/// zero.
#[derive(Debug, Drop)]
pub struct Segment {
    /// p_vaddr.
    pub address: u32,
    /// p_memsz.
    pub size: u32,
    /// The rights of each page that has an address of the segment.
    pub rights: Rights,
    /// The p_filesz bytes at p_offset.
    pub content: Content,
}
