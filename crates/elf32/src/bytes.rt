//! Writing bytes over other bytes.

ghost use Rattle.std.specs.Prelude.{◌≡◌, ◌+◌, ◌≤◌, length};
ghost use Rattle.elf32.specs.Pages.{overwritten_at};

/// Writes `new` over the bytes from the place `at` on. The caller has checked that they reach that far: `at` and the length of
/// `new` together are at most the length of `bytes`.
#[inline(always)]
#[tactic(auto, unfolding(crate::specs::Pages::overwritten_at))]
pub fn put(bytes: &mut [u8], at: usize, new: &[u8])
    requires { at + length new.now ≤ length bytes.old }
    ensures value { bytes.new ≡ overwritten_at bytes.old at new.now }
    ensures len { length bytes.new ≡ length bytes.old }
{
    bytes[at..at + new.len()].copy_from_slice(new);
}
