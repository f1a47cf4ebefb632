//! Raw memory: blocks of bytes, each written from its start on.

ghost use Rattle.std.specs.Prelude.{◌≡◌, ℕ, ◌+◌, ◌<◌, ◌^◌, List, [], ◌∷◌, ◌++◌, length, IfOk, ⊤};
ghost use base.Fml.{ftrue};
ghost use denote.RawPtr.{Ptr};
ghost use Rattle.version_arena.specs.Ownership.{bytes_own, bytes_lent, allocation_owns};

use std::alloc::{AllocError, Allocator};
use std::marker::{Model, PhantomData, Send, Sync};
use std::slice;

/// The address at which a block begins. It owns nothing.
pub(crate) struct BaseAddress {
    ptr: *mut u8,
}

impl Clone for BaseAddress {
    ghost is_clone = { λ x y. y ≡ x };

    ghost is_infallible = { λ _. ⊤ };

    fn clone(&self) -> Result<BaseAddress, AllocError> {
        Ok(*self)
    }
}

impl Copy for BaseAddress {}

unsafe impl Send for BaseAddress {}

unsafe impl Sync for BaseAddress {}

/// The owner of a block's memory: the written bytes from `at` on, and room for `room` more after
/// them. It takes no space.
pub(crate) struct Bytes {
    ghost at: { Ptr },
    ghost bytes: { List ℕ },
    ghost room: { ℕ },
}

impl Model for Bytes {
    ghost also_owns = { λ c. bytes_own c.at c.bytes c.room };

    ghost also_shares = { λ c _ κ. bytes_lent c.at c.bytes c.room κ };
}

unsafe impl Send for Bytes {}

unsafe impl Sync for Bytes {}

/// The right to return the block of `size` bytes at `at` to `alloc`. It takes no space.
pub(crate) struct Allocation<A: Allocator> {
    mark: PhantomData<A>,
    ghost at: { Ptr },
    ghost size: { ℕ },
    ghost alloc: { A },
}

impl<A: Allocator> Model for Allocation<A> {
    ghost also_owns = { λ d. allocation_owns (A.dealloc_token d.alloc) d.at d.size };

    ghost also_shares = { λ _ _ _. ftrue };
}

unsafe impl<A: Allocator + Send> Send for Allocation<A> {}

// A shared reference to it gives no right, so any thread may have one.
unsafe impl<A: Allocator> Sync for Allocation<A> {}

/// Takes a block of `size` bytes, none of them written; refused if memory ran out.
pub(crate) fn allocate<A: Allocator>(
    alloc: &A,
    size: usize,
) -> Result<(BaseAddress, Bytes, Allocation<A>), AllocError>
    requires { size < 2 ^ 63 }
    ensures { IfOk result (λ r. (r.1.at ≡ r.0.ptr) × (r.1.bytes ≡ []) × (r.1.room ≡ size) × (r.2.at ≡ r.0.ptr) × (r.2.size ≡ size) × (r.2.alloc ≡ alloc.now)) }
{
    match alloc.allocate(size, 1) {
        Ok(ptr) => {
            let mark = PhantomData;
            Ok((BaseAddress { ptr }, Bytes {}, Allocation { mark }))
        }
        Err(error) => Err(error),
    }
}

/// Returns a block without written bytes to its allocator.
pub(crate) fn deallocate<A: Allocator>(
    alloc: &A,
    base: BaseAddress,
    size: usize,
    bytes: Bytes,
    allocation: Allocation<A>,
)
    requires { (bytes.at ≡ base.ptr) × (bytes.bytes ≡ []) × (bytes.room ≡ size) × (allocation.at ≡ base.ptr) × (allocation.size ≡ size) × (allocation.alloc ≡ alloc.now) }
{
    let Bytes {} = bytes;
    let Allocation { mark: _ } = allocation;
    unsafe { alloc.deallocate(base.ptr, size, 1) }
}

impl Bytes {
    /// Writes a byte after the written ones.
    pub(crate) fn put(&mut self, base: BaseAddress, at: usize, byte: u8)
        requires { (base.ptr ≡ self.old.at) × (at ≡ length self.old.bytes) × (0 < self.old.room) }
        ensures { (self.new.at ≡ self.old.at) × (self.new.bytes ≡ self.old.bytes ++ byte ∷ []) × (self.new.room + 1 ≡ self.old.room) }
    {
        unsafe { base.ptr.add(at).write(byte) }
    }

    /// Lends the `len` written bytes.
    pub(crate) fn lend(&self, base: BaseAddress, len: usize) -> &[u8]
        requires { (base.ptr ≡ self.now.at) × (len ≡ length self.now.bytes) }
        ensures { result.now ≡ self.now.bytes }
    {
        unsafe { slice::from_raw_parts(base.ptr, len) }
    }

    /// Turns the written bytes into room again.
    pub(crate) fn clear(&mut self)
        ensures { (self.new.at ≡ self.old.at) × (self.new.bytes ≡ []) × (self.new.room ≡ length self.old.bytes + self.old.room) }
    {}
}
