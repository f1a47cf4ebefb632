//! A pool of chunks, which are filled one after another with the bytes of values.

ghost use Rattle.std.specs.Prelude.{◌≡◌, ◌+◌, ◌<◌, ◌≤◌, OnErr, OnOk, Ok, [], drop, get_or, length, map};
ghost use Rattle.version_arena.specs.Chunks.{KeepsBytes, LiesWithin, capacity_of, empty_chunk, free, part, rewound, spare, with_room};
ghost use Rattle.version_arena.specs.StoredRecords.{IsShortSpan};

use crate::chunk::Chunk;
use rv_ledger::LentValue;
use std::alloc::{AllocError, Global};
use std::marker::Model;

/// The least number of bytes of a chunk.
pub(crate) const CHUNK_BYTES: usize = 65_536;

/// The number of bytes at the end of a chunk that may be too few for a value.
const TAIL_BYTES: usize = 255;

/// The place of some bytes: the index of their chunk, the place of the first byte in it, and the number of bytes.
#[derive(Clone, Copy)]
pub(crate) struct Span {
    chunk: usize,
    start: usize,
    len: usize,
}

/// Chunks that are filled in order: those before the current one are not written again until `rewind`.
/// There is room for `room` bytes of values, and for `capacity` when the chunks are empty.
#[derive(Drop)]
pub(crate) struct Pool {
    room: usize,
    current: usize,
    chunks: Vec<Chunk>,
    capacity: usize,
    alloc: Global,
}

impl Model for Pool {
    ghost use Rattle.std.specs.Prelude.{◌≡◌, ◌≤◌, drop, length};
    ghost use Rattle.version_arena.specs.Chunks.{PoolState, capacity_of, spare};

    ghost Value = { PoolState };

    ghost view = { λ p. record { chunks = p.chunks.items; current = p.current; room = p.room } };

    ghost invariant = { λ p. (p.capacity ≡ capacity_of p.chunks.items) × (p.current ≤ length p.chunks.items) × (p.room ≤ spare (drop p.current p.chunks.items)) };
}

impl Pool {
    /// No chunks. Takes no memory.
    pub(crate) fn new(alloc: Global) -> Pool
        ensures { result ≡ record { chunks = []; current = 0; room = 0 } }
    {
        Pool {
            chunks: Vec::new(alloc),
            current: 0,
            room: 0,
            capacity: 0,
            alloc,
        }
    }

    /// Makes room for more than this many bytes of values, by adding at most one chunk. Refused if memory ran out or the sizes
    /// are too large for any memory, and then nothing changes.
    pub(crate) fn reserve(&mut self, bytes: usize) -> Result<(), AllocError>
        ensures ok { OnOk result (self.new ≡ with_room bytes self.old) }
        ensures enough { OnOk result (bytes < self.new.room) }
        ensures room { self.old.room ≤ self.new.room }
        ensures keeps { KeepsBytes self.old.chunks self.new.chunks }
        ensures unchanged { OnErr result (self.new ≡ self.old) }
        ensures succeeds { bytes < self.old.room → result ≡ Ok tt }
    {
        if bytes < self.room {
            return Ok(());
        }
        let Some(wanted) = (bytes - self.room).checked_add(TAIL_BYTES + 1) else {
            return Err(AllocError);
        };
        let Ok(_) = isize::try_from(wanted) else {
            return Err(AllocError);
        };
        let size = wanted.max(CHUNK_BYTES);
        let promise = size - TAIL_BYTES;
        let Some(capacity) = self.capacity.checked_add(promise) else {
            return Err(AllocError);
        };
        self.chunks.reserve(1)?;
        let chunk = Chunk::new(self.alloc, size)?;
        self.chunks.push_reserved(chunk);
        self.room += promise;
        self.capacity = capacity;
        Ok(())
    }

    /// Writes the bytes of a value, fewer than there is room for, and returns their place. Takes no memory.
    pub(crate) fn write(&mut self, value: LentValue) -> Span
        requires { length value.bytes.now < self.old.room }
        ensures short { IsShortSpan self.new.chunks result }
        ensures bytes { part self.new.chunks result ≡ value.entry.bytes.now }
        ensures keeps { KeepsBytes self.old.chunks self.new.chunks }
        ensures room { self.new.room + length value.entry.bytes.now ≡ self.old.room }
    {
        let bytes = value.bytes();
        let chunk = find(&self.chunks, self.current, bytes.len());
        let start = self.chunks[chunk].used();
        self.chunks[chunk].append(bytes);
        self.current = chunk;
        self.room -= bytes.len();
        Span {
            chunk,
            start,
            len: bytes.len(),
        }
    }

    /// Lends the bytes of a span.
    pub(crate) fn read(&self, span: Span) -> &[u8]
        requires { LiesWithin self.now.chunks span }
        ensures { result.now ≡ part self.now.chunks span }
    {
        self.chunks[span.chunk].read(span.start, span.len)
    }

    /// Takes all bytes out of use, and keeps the chunks. Takes no memory.
    pub(crate) fn rewind(&mut self)
        ensures rewound { self.new ≡ rewound self.old }
        ensures room { self.old.room ≤ self.new.room }
    {
        rewind_all(&mut self.chunks);
        self.current = 0;
        self.room = self.capacity;
    }
}

/// The first chunk, from the one of index `from` on, that has room for `len` bytes.
fn find(chunks: &Vec<Chunk>, from: usize, len: usize) -> usize
    requires { (len ≤ 256) × (1 ≤ spare (drop from chunks.now.items)) }
    ensures within { result < length chunks.now.items }
    ensures free { len ≤ free (get_or chunks.now.items result (empty_chunk 0)) }
    ensures room { spare (drop result chunks.now.items) ≡ spare (drop from chunks.now.items) }
{
    let mut i = from;
    while chunks[i].free() < len {
        i += 1;
    }
    i
}

/// Takes all bytes of all chunks out of use.
fn rewind_all(chunks: &mut Vec<Chunk>)
    ensures items { chunks.new.items ≡ map (λ c. empty_chunk c.size) chunks.old.items }
    ensures capacity { capacity_of chunks.new.items ≡ capacity_of chunks.old.items }
{
    let mut i = 0;
    while i < chunks.len() {
        chunks[i].rewind();
        i += 1;
    }
}
