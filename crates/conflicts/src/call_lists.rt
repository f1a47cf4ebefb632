//! Some calls at each key.

use rv_ledger::{Change, Key, StoredValue, Writes};
use std::alloc::{AllocError, Global};
use std::collections::BTreeMap;
use std::marker::Model;

/// Some calls, ascending.
#[derive(Drop)]
pub(crate) struct CallList {
    calls: Vec<u16>,
}

impl Model for CallList {
    ghost use Rattle.std.specs.Prelude.{ℕ, List};

    ghost Value = { List ℕ };

    ghost view = { λ c. c.calls.items };
}

impl CallList {
    ghost use Rattle.std.specs.Prelude.{[], ◌≡◌, ◌∷◌, ◌++◌, IfOk, OnOk};

    /// No calls.
    fn new(alloc: Global) -> CallList
        ensures { result ≡ [] }
    {
        CallList {
            calls: Vec::new(alloc),
        }
    }

    /// One call. Refused if memory ran out.
    fn of_one(alloc: Global, call: u16) -> Result<CallList, AllocError>
        ensures { IfOk result (λ list. list ≡ call ∷ []) }
    {
        let mut calls = Vec::new(alloc);
        calls.push(call)?;
        Ok(CallList { calls })
    }

    /// Adds a call. Refused if memory ran out.
    fn push(&mut self, call: u16) -> Result<(), AllocError>
        ensures { OnOk result (self.new ≡ self.old ++ call ∷ []) }
    {
        self.calls.push(call)?;
        Ok(())
    }
}

/// For each key some calls, ascending.
#[derive(Drop)]
pub(crate) struct CallLists {
    alloc: Global,
    entries: BTreeMap<Key, CallList>,
}

impl Model for CallLists {
    ghost use Rattle.std.specs.FinMap as map;
    ghost use Rattle.std.specs.Coded.{coded_list, coded_ℕ};
    ghost use Rattle.conflicts.specs.Calls as calls;

    ghost Value = { calls.CallLists };

    ghost coded = { map.code (coded_list coded_ℕ) (coded_list coded_ℕ) };

    ghost view = { λ c. map.from_entries c.entries.entries };
}

impl CallLists {
    ghost use Rattle.std.specs.FinMap as map;
    ghost use Rattle.std.specs.Prelude.{[], ◌≡◌, ◌∷◌, OnOk};
    ghost use Rattle.conflicts.specs.Calls.{calls_at, with_call_at, with_call_changes};
    ghost use Rattle.conflicts.specs.Table.{after_change, after_changes};

    /// No calls.
    pub(crate) fn new(alloc: Global) -> CallLists
        ensures { result ≡ map.empty }
    {
        CallLists {
            alloc,
            entries: BTreeMap::new(alloc),
        }
    }

    /// The calls at a key.
    pub(crate) fn at(&self, key: &Key) -> &[u16]
        ensures { result.now ≡ calls_at self.now key.now }
    {
        match self.entries.get(key) {
            Some(list) => list.calls.as_slice(),
            None => &[],
        }
    }

    /// Adds the next call at each key that the call changes. Refused if memory ran out.
    pub(crate) fn add_all(&mut self, call: u16, writes: &Writes) -> Result<(), AllocError>
        ensures { OnOk result (self.new ≡ with_call_changes call (map.entries writes.now) self.old) }
    {
        for (key, _) in writes.as_slice() {
            self.add(call, *key)?;
        }
        Ok(())
    }

    /// Notes the changes of the next call; these lists are the calls that reads of each key name. Refused if memory ran out.
    pub(crate) fn note_all(&mut self, call: u16, writes: &Writes) -> Result<(), AllocError>
        ensures { OnOk result (self.new ≡ after_changes call (map.entries writes.now) self.old) }
    {
        for (key, change) in writes.as_slice() {
            self.note(call, *key, change)?;
        }
        Ok(())
    }

    /// Notes what the next call does to a key: reads pass a sum, and any other change hides what is below it. Refused if memory
    /// ran out.
    fn note(&mut self, call: u16, key: Key, change: &Change<StoredValue>) -> Result<(), AllocError>
        ensures { OnOk result (self.new ≡ after_change call self.old key change.now) }
    {
        match change {
            Change::Sum(_) => self.add(call, key),
            _ => self.set_alone(call, key),
        }
    }

    /// Adds a call at a key. Refused if memory ran out.
    fn add(&mut self, call: u16, key: Key) -> Result<(), AllocError>
        ensures { OnOk result (self.new ≡ with_call_at call self.old key) }
    {
        let alloc = self.alloc;
        let entry = self.entries.entry(key)?;
        let list = entry.or_insert_with(|| CallList::new(alloc));
        list.push(call)
    }

    /// Leaves only this call at a key. Refused if memory ran out.
    fn set_alone(&mut self, call: u16, key: Key) -> Result<(), AllocError>
        ensures { OnOk result (self.new ≡ map.insert self.old key (call ∷ [])) }
    {
        let list = CallList::of_one(self.alloc, call)?;
        self.entries.insert(key, list)?;
        Ok(())
    }
}
