//! The lists that a read writes the bytes of a long value into.

ghost use Rattle.std.specs.Prelude.{◌≡◌, IsTrue, None};
ghost use Rattle.rv_ledger.specs.Lent.{lent_content};
ghost use Rattle.mvmap.specs.Answers.{with_amount};
ghost use Rattle.stm_core.specs.CoreState.{HasValueRoom, IsInPlace};
ghost use Rattle.stm_core.specs.Inner.{value_room_of};

use rv_ledger::{LentValue, StoredValue, VALUE_LIMIT, add};
use std::alloc::Global;

/// Two lists for the bytes of the value that a read finds: one for the answer that the core keeps, and one for
/// the answer that it hands out. A read of a value that is kept in place leaves them their room.
#[derive(Drop)]
pub(crate) struct ValueLists {
    /// The list for the value that is kept.
    pub(crate) kept: Vec<u8>,
    /// The list for the value that is handed out.
    pub(crate) lent: Vec<u8>,
}

/// What a read found at a key, twice.
#[derive(Drop)]
pub(crate) struct ReadContents {
    /// The value that is kept, or None for absence.
    pub(crate) kept: Option<StoredValue>,
    /// The value that is handed out, or None for absence.
    pub(crate) lent: Option<StoredValue>,
}

impl ValueLists {
    /// Lists without room. Takes no memory.
    pub(crate) fn new(alloc: Global) -> ValueLists {
        ValueLists {
            kept: Vec::new(alloc),
            lent: Vec::new(alloc),
        }
    }

    /// Whether each has room for any value.
    pub(crate) fn have_room(&self) -> bool
        ensures { IsTrue result → HasValueRoom (value_room_of self.now) }
    {
        VALUE_LIMIT <= self.kept.capacity() && VALUE_LIMIT <= self.lent.capacity()
    }

    /// What a key has after an amount is added, if there is one, twice. Takes no memory.
    #[inline(always)]
    pub(crate) fn contents(&mut self, content: Option<LentValue>, sum: Option<u64>) -> ReadContents
        requires { HasValueRoom (value_room_of self.old) }
        ensures kept { result.kept ≡ with_amount (lent_content content.entry) sum }
        ensures lent { result.lent ≡ with_amount (lent_content content.entry) sum }
        ensures stay { IsInPlace (with_amount (lent_content content.entry) sum) → self.new ≡ self.old }
    {
        match sum {
            Some(amount) => {
                let value = add(content, amount);
                self.copies(Some(value.lend()))
            }
            None => self.copies(content),
        }
    }

    /// A value, or None for None, twice. More than 16 bytes take the lists with them. Takes no memory.
    #[inline(always)]
    fn copies(&mut self, content: Option<LentValue>) -> ReadContents
        requires { HasValueRoom (value_room_of self.old) }
        ensures kept { result.kept ≡ lent_content content.entry }
        ensures lent { result.lent ≡ lent_content content.entry }
        ensures stay { IsInPlace (lent_content content.entry) → self.new ≡ self.old }
    {
        match content {
            Some(value) => ReadContents {
                kept: Some(StoredValue::of_room(value, &mut self.kept)),
                lent: Some(StoredValue::of_room(value, &mut self.lent)),
            },
            None => ReadContents {
                kept: None,
                lent: None,
            },
        }
    }
}
