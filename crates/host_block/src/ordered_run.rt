//! A block's calls in order, over a storage that a host keeps.

ghost use Rattle.std.specs.Prelude.{◌≡◌, IfOk};
ghost use Rattle.rv_ledger.specs.Lent.{lent_content};

use crate::parts::{Current, Parts, keep_base, run_block};
use crate::touched_keys::TouchedKeys;
use rv_ledger::{Call, Key, LentValue, Receipt, StoredValue};
use rv_step::SpareRun;
use std::alloc::{AllocError, Global};
use std::marker::Model;

/// A run of a block's calls, one after another, over a storage that a host keeps. Each key is asked for at most once.
#[derive(Drop)]
pub struct OrderedRun {
    parts: Parts,
    /// The key that the host has to answer.
    asked: Option<Key>,
}

impl Model for OrderedRun {
    ghost use Rattle.std.specs.FinMap as map;
    ghost use Rattle.std.specs.Coded.{codes, coded_list, coded_option, coded_ℕ};
    ghost use Rattle.rv_ledger.specs.Change.{coded_change};
    ghost use Rattle.rv_ledger.specs.Key.{key_cmp};
    ghost use Rattle.rv_ledger.specs.contracts.receipt.Receipt.{the_row as receipt_row};
    ghost use Rattle.rv_ledger.specs.contracts.call.Call.{the_row as call_row};
    ghost use Rattle.host_block.specs.Ordered.{AsksWanted, IsInOrder, OrderedView, ordered_view};

    ghost Value = { OrderedView };

    ghost coded = { Prim.hlevel (codes, call_row.coded, receipt_row.coded, map.code {R = key_cmp} (coded_list coded_ℕ) coded_change, map.code {R = key_cmp} (coded_list coded_ℕ) (coded_option (coded_list coded_ℕ))) };

    ghost view = { λ r. ordered_view r.parts r.asked };

    ghost invariant = { λ r. IsInOrder r.parts × AsksWanted r.parts r.asked };
}

/// Why an answer of the host is refused.
#[derive(Clone, Copy, Debug, PartialEq, Eq)]
pub enum BaseFault {
    /// No key is asked for.
    NotAsked,
    /// Memory ran out.
    Memory,
}

/// What a block did.
#[derive(Clone, Copy)]
pub struct BlockResult<'a> {
    /// What each call did, in block order.
    pub receipts: &'a [Receipt],
    /// The keys that the calls wrote, ascending, each with what it has after the block: a value, or None if it is removed.
    pub changes: &'a [(Key, Option<StoredValue>)],
}

impl OrderedRun {
    ghost use Rattle.std.specs.Prelude.{◌≡◌, IfOk, IfErr, IfSome, OnErr, OnOk, None, Ok, Some};
    ghost use Rattle.std.specs.FinMap as map;
    ghost use Rattle.rv_ledger.specs.Lent.{lent_content};
    ghost use Rattle.host_block.specs.Ordered.{AreResults, IsBaseFault, IsBaseKept, IsStopped, KeepsReceipts, SameGiven, new_run};

    /// The run of some calls before its first step. Takes no memory.
    pub fn new(alloc: Global, calls: Vec<Call>) -> OrderedRun
        ensures { result ≡ new_run calls.items }
    {
        OrderedRun {
            parts: Parts {
                alloc,
                calls,
                receipts: Vec::new(alloc),
                current: Current::Next,
                touched: TouchedKeys::new(alloc),
                spare: SpareRun::new(alloc),
                sums: None,
                known_sums: 0,
                listed: None,
            },
            asked: None,
        }
    }

    /// The key that is asked for.
    pub fn asked(&self) -> Option<Key>
        ensures { result ≡ self.now.asked }
    {
        self.asked
    }

    /// Continues until a key is needed that the host did not answer, which is returned, or until all calls have ended. A run that
    /// waits for an answer, or that has its result, stays as it is. Refused if memory ran out; then the run is before the instruction
    /// that needed memory, and may continue.
    pub fn go(&mut self) -> Result<Option<Key>, AllocError>
        ensures stays { SameGiven self.old self.new }
        ensures keeps { KeepsReceipts self.old.receipts self.new.receipts }
        ensures stop { IfOk result (λ asked. IsStopped asked self.new) }
        ensures asked { IfSome self.old.asked (λ key. self.new ≡ self.old) }
        ensures ended { IfSome self.old.result (λ changes. (self.new ≡ self.old) × (result ≡ Ok None)) }
        ensures err { OnErr result ((self.new.asked ≡ None) × (self.new.result ≡ None)) }
    {
        if let Some(key) = self.asked {
            return Ok(Some(key));
        }
        if self.parts.listed.is_some() {
            return Ok(None);
        }
        match run_block(&mut self.parts)? {
            Some(key) => {
                self.asked = Some(key);
                Ok(Some(key))
            }
            None => Ok(None),
        }
    }

    /// Answers the key that is asked for: what the host's storage has there before the block. Refused as NotAsked if none is asked
    /// for, otherwise as Memory if memory ran out. A refused answer changes nothing.
    pub fn answer(&mut self, content: Option<LentValue>) -> Result<(), BaseFault>
        ensures ok { OnOk result (IsBaseKept (lent_content content.entry) self.old self.new) }
        ensures err { OnErr result (self.new ≡ self.old) }
        ensures fault { IfErr result (λ fault. IsBaseFault fault self.old) }
    {
        let Some(key) = self.asked else {
            return Err(BaseFault::NotAsked);
        };
        match kept(self.parts.alloc, content) {
            Ok(content) => self.keep(key, content),
            Err(AllocError) => Err(BaseFault::Memory),
        }
    }

    /// Keeps the answer to the key that is asked for. Refused if memory ran out, and then nothing changes.
    fn keep(&mut self, key: Key, content: Option<StoredValue>) -> Result<(), BaseFault>
        requires { self.old.asked ≡ Some key }
        ensures ok { OnOk result (IsBaseKept content self.old self.new) }
        ensures err { OnErr result (self.new ≡ self.old) }
        ensures fault { IfErr result (λ fault. fault ≡ BaseFault.Memory) }
    {
        match keep_base(&mut self.parts, key, content) {
            Ok(()) => {
                self.asked = None;
                Ok(())
            }
            Err(AllocError) => Err(BaseFault::Memory),
        }
    }

    /// What the block did, once all calls have ended; None before.
    pub fn result(&self) -> Option<BlockResult<'_>>
        ensures { AreResults result self.now }
    {
        match &self.parts.listed {
            Some(changes) => Some(BlockResult {
                receipts: self.parts.receipts.as_slice(),
                changes: changes.as_slice(),
            }),
            None => None,
        }
    }
}

/// Keeps a value that is lent, or None for None; refused if memory ran out.
fn kept(alloc: Global, content: Option<LentValue>) -> Result<Option<StoredValue>, AllocError>
    ensures { IfOk result (λ value. value ≡ lent_content content.entry) }
{
    match content {
        Some(value) => Ok(Some(StoredValue::of(alloc, value)?)),
        None => Ok(None),
    }
}
