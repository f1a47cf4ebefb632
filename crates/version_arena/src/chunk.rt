//! A chunk: a block of bytes that is filled from its start.

ghost use Rattle.std.specs.Prelude.{◌≡◌, ◌+◌, ◌^◌, ◌<◌, ◌≤◌, ◌++◌, ◌∷◌, [], IfOk, drop, length, take};
ghost use Rattle.version_arena.specs.Chunks.{empty_chunk, free};

use crate::raw::{Allocation, BaseAddress, Bytes, allocate, deallocate};
use std::alloc::{AllocError, Global};
use std::marker::Model;

/// A block of `size` bytes, of which the first `used` are in use.
pub(crate) struct Chunk {
    base: BaseAddress,
    bytes: Bytes,
    allocation: Allocation<Global>,
    used: usize,
    size: usize,
    alloc: Global,
}

impl Model for Chunk {
    ghost use Rattle.std.specs.Prelude.{◌≡◌, ◌+◌, length};
    ghost use Rattle.version_arena.specs.Chunks.{ChunkState};

    ghost Value = { ChunkState };

    ghost view = { λ c. record { bytes = c.bytes.bytes; size = c.size } };

    ghost invariant = { λ c. (c.bytes.at ≡ c.base.ptr) × (length c.bytes.bytes ≡ c.used) × (c.used + c.bytes.room ≡ c.size) × (c.allocation.at ≡ c.base.ptr) × (c.allocation.size ≡ c.size) × (c.allocation.alloc ≡ c.alloc) };
}

impl Chunk {
    /// A chunk of `size` bytes, none of them in use; refused if memory ran out.
    pub(crate) fn new(alloc: Global, size: usize) -> Result<Chunk, AllocError>
        requires { size < 2 ^ 63 }
        ensures { IfOk result (λ c. c ≡ empty_chunk size) }
    {
        let (base, bytes, allocation) = allocate(&alloc, size)?;
        Ok(Chunk {
            base,
            bytes,
            allocation,
            used: 0,
            size,
            alloc,
        })
    }

    /// How many bytes are in use.
    pub(crate) fn used(&self) -> usize
        ensures { result ≡ length self.now.bytes }
    {
        self.used
    }

    /// How many bytes are not in use.
    pub(crate) fn free(&self) -> usize
        ensures free { result ≡ free self.now }
        ensures within { length self.now.bytes ≤ self.now.size }
    {
        self.size - self.used
    }

    /// Copies bytes into the chunk, after those in use.
    pub(crate) fn append(&mut self, bytes: &[u8])
        requires { length bytes.now ≤ free self.old }
        ensures { self.new ≡ record { bytes = self.old.bytes ++ bytes.now; size = self.old.size } }
    {
        let mut i = 0;
        while i < bytes.len() {
            self.push(bytes[i]);
            i += 1;
        }
    }

    /// Writes one byte after those in use.
    fn push(&mut self, byte: u8)
        requires { 0 < free self.old }
        ensures { self.new ≡ record { bytes = self.old.bytes ++ byte ∷ []; size = self.old.size } }
    {
        self.bytes.put(self.base, self.used, byte);
        self.used += 1;
    }

    /// Lends the `len` bytes from `start` on, all of them in use.
    pub(crate) fn read(&self, start: usize, len: usize) -> &[u8]
        requires { start + len ≤ length self.now.bytes }
        ensures { result.now ≡ take len (drop start self.now.bytes) }
    {
        let bytes = self.bytes.lend(self.base, self.used);
        &bytes[start..][..len]
    }

    /// Takes all bytes out of use.
    pub(crate) fn rewind(&mut self)
        ensures { self.new ≡ empty_chunk self.old.size }
    {
        self.bytes.clear();
        self.used = 0;
    }
}

impl Drop for Chunk {
    fn drop(self) {
        let Chunk {
            base,
            mut bytes,
            allocation,
            used: _,
            size,
            alloc,
        } = self;
        bytes.clear();
        deallocate(&alloc, base, size, bytes, allocation);
    }
}
