//! What takes the entries of a tree.

ghost use Rattle.std.specs.Prelude.{◌≡◌, ◌≤◌, ℕ, List, length, false, IfOk, IsTrue};
ghost use Rattle.std.specs.FinMap.{entries, insert};
ghost use Rattle.std.specs.List.{AllByRecursion};
ghost use Rattle.std.specs.declared.cmp.Ordering.TheVariants.{Less};
ghost use Rattle.session_tree.specs.Entries.{ByteMap};
ghost use Rattle.rv_ledger.specs.Key.{key_cmp};

use rv_ledger::{Key, StoreBuilder, Value};
use std::alloc::AllocError;

/// What takes the entries of a tree, by ascending keys. It need not keep their bytes.
pub trait Entries {
    // It is what comes of taking these entries.
    ghost is_made_of: { Self → ByteMap → Type 0 };

    // Which values it takes.
    ghost fits: { List ℕ → Type 0 };

    /// Takes an entry whose key is above all others, or returns false if its value does not fit.
    fn take(&mut self, key: Key, value: &[u8]) -> Result<bool, AllocError>
        ensures taken { IfOk result (λ is_taken. IsTrue is_taken → (before : ByteMap) → AllByRecursion (λ e. key_cmp e.0 key ≡ Less) (entries before)
            → is_made_of self.old before → is_made_of self.new (insert before key value.now)) }
        ensures fits { IfOk result (λ is_taken. IsTrue is_taken → fits value.now) }
        ensures refused { IfOk result (λ is_taken. is_taken ≡ false → ¬ fits value.now) };
}

impl Entries for StoreBuilder {
    ghost is_made_of = { λ b m. b ≡ m };

    ghost fits = { λ value. length value ≤ 256 };

    fn take(&mut self, key: Key, value: &[u8]) -> Result<bool, AllocError> {
        let Some(value) = Value::of(value) else {
            return Ok(false);
        };
        self.insert(key, &value)?;
        Ok(true)
    }
}
