//! Byte strings of a bounded length. Each keeps its bytes in an array of its own, so that copying
//! one takes no memory.

ghost use Rattle.std.specs.Prelude.{◌≡◌, ◌≤◌, ◌↔◌, ◌++◌, ◌==◌, [], drop, IsSome, IfSome, IsTrue, length, take};
ghost use Rattle.std.proofs.Common.{rules};
ghost use Rattle.std.specs.Cmp.Rules.{comparing};
ghost use Rattle.std.specs.Cmp.Lexicographic.{pointwise};

use crate::lent_value::LentValue;
use std::alloc::AllocError;
use std::fmt;
use std::marker::Model;

/// The greatest length of a stored value, in bytes.
pub const VALUE_LIMIT: usize = 256;

/// The greatest length of a call's output, in bytes.
pub const OUTPUT_LIMIT: usize = 256;

/// A byte string of at most `LIMIT` bytes.
#[derive(Drop)]
pub struct InlineBytes<const LIMIT: usize> {
    len: usize,
    room: [u8; LIMIT],
}

/// A value of the storage, of at most 256 bytes.
pub type Value = InlineBytes<VALUE_LIMIT>;

/// What a call returns or reverts with, of at most 256 bytes.
pub type Output = InlineBytes<OUTPUT_LIMIT>;

impl<const LIMIT: usize> Model for InlineBytes<LIMIT> {
    ghost use Rattle.std.specs.Prelude.{ℕ, List, take, ◌≤◌};

    ghost Value = { List ℕ };

    ghost view = { λ b. take b.len b.room };

    ghost invariant = { λ b. b.len ≤ LIMIT };
}

impl<const LIMIT: usize> InlineBytes<LIMIT> {
    /// The same bytes, or None if there are more than `LIMIT`.
    pub fn of(bytes: &[u8]) -> Option<InlineBytes<LIMIT>>
        ensures fits { IsSome result ↔ (length bytes.now ≤ LIMIT) }
        ensures value { IfSome result (λ v. v ≡ bytes.now) }
    {
        if bytes.len() > LIMIT {
            return None;
        }
        let mut room = [0; LIMIT];
        begin(&mut room, bytes);
        Some(InlineBytes {
            len: bytes.len(),
            room,
        })
    }

    /// The first `len` bytes of an array.
    #[inline(always)]
    pub fn of_room(room: &[u8; LIMIT], len: usize) -> InlineBytes<LIMIT>
        requires { len ≤ LIMIT }
        ensures { result ≡ take len room.now }
    {
        InlineBytes { len, room: *room }
    }

    /// No bytes.
    pub fn empty() -> InlineBytes<LIMIT>
        ensures { result ≡ [] }
    {
        InlineBytes {
            len: 0,
            room: [0; LIMIT],
        }
    }

    /// The bytes, at most `LIMIT`.
    pub fn bytes(&self) -> &[u8]
        ensures value { result.now ≡ self.now }
        ensures short { length result.now ≤ LIMIT }
    {
        &self.room[..self.len]
    }

    /// An equal byte string.
    pub fn copy(&self) -> InlineBytes<LIMIT>
        ensures { result ≡ self.now }
    {
        InlineBytes {
            len: self.len,
            room: self.room,
        }
    }
}

impl Value {
    /// The value, lent.
    pub fn lend(&self) -> LentValue<'_>
        ensures { result.bytes.now ≡ self.now }
    {
        LentValue::of(self.bytes())
    }
}

impl<const LIMIT: usize> Clone for InlineBytes<LIMIT> {
    ghost is_clone = { λ a b. b ≡ a };

    ghost is_infallible = { λ _. Unit {0} };

    fn clone(&self) -> Result<InlineBytes<LIMIT>, AllocError> {
        Ok(self.copy())
    }
}

impl<const LIMIT: usize> PartialEq for InlineBytes<LIMIT> {
    ghost eq = { pointwise ◌==◌ };

    ghost laws = { Prim.search (comparing, rules) };

    fn eq(&self, other: &InlineBytes<LIMIT>) -> bool {
        self.bytes() == other.bytes()
    }
}

impl<const LIMIT: usize> fmt::Debug for InlineBytes<LIMIT> {
    fn fmt<W: fmt::Write>(&self, f: &mut fmt::Formatter<W>) -> fmt::Result {
        self.bytes().fmt(f)
    }
}

/// Writes bytes over the beginning of a slice that is at least as long.
fn begin(room: &mut [u8], bytes: &[u8])
    requires { length bytes.now ≤ length room.old }
    ensures { room.new ≡ bytes.now ++ drop (length bytes.now) room.old }
{
    room[..bytes.len()].copy_from_slice(bytes);
}
