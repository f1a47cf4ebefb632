//! The parts of a block's run in order, and how they change.

ghost use Rattle.std.specs.Prelude.{◌≡◌, ◌⊎◌, ◌<◌, ◌≤◌, ◌+◌, ℕ, List, [], drop, true, IfOk, IsSome, OnErr, OnOk, None, Some, is_some, length, slice_get, vec_capacity, vec_len};
ghost use Rattle.std.specs.FinMap as map;
ghost use Rattle.host_block.specs.Ordered.{HasBegun, IsCallOver, IsCallStop, IsInOrder, IsNextSum, IsRunStop, IsStop, KeepsReceipts, SameParts, now_with};
ghost use Rattle.rv_ledger.specs.Key.{Storage};
ghost use Rattle.host_block.specs.declared.parts.Current.TheVariants.{Ended};

use crate::listing::{listed, sum_keys};
use crate::run_call::run_call;
use crate::touched_keys::TouchedKeys;
use rv_ledger::{Call, Key, Receipt, StoredValue, Writes};
use rv_step::{EndedRun, Run, SpareRun, one_receipt};
use std::alloc::{AllocError, Global};
use std::mem::replace;

/// For how many keys of each call there is room at first. So most blocks move no slots.
const KEYS_PER_CALL: usize = 2;

/// The call after those that have receipts.
#[derive(Drop)]
pub enum Current {
    /// It has not begun, or there is none.
    Next,
    /// It runs.
    Run(Run),
    /// It has ended, and this many of its writes are among the changes.
    Ended(Receipt, usize),
}

/// A block's run in order.
#[derive(Drop)]
pub struct Parts {
    /// The allocator of what it keeps.
    pub(crate) alloc: Global,
    /// The calls.
    pub(crate) calls: Vec<Call>,
    /// The receipts of the calls that have ended.
    pub(crate) receipts: Vec<Receipt>,
    /// The call after them.
    pub(crate) current: Current,
    /// What the host answered, and what the calls changed.
    pub(crate) touched: TouchedKeys,
    /// The machine and the list of an earlier run.
    pub(crate) spare: SpareRun,
    /// After the last call: the keys to which the calls only add.
    pub(crate) sums: Option<Vec<Key>>,
    /// How many of them are known.
    pub(crate) known_sums: usize,
    /// After that: the changes of the result.
    pub(crate) listed: Option<Vec<(Key, Option<StoredValue>)>>,
}

/// Continues until a key is needed that is not known, which is returned, or until the changes are listed. Refused if memory ran
/// out; then nothing is lost, and it may continue.
#[tactic(auto, using(crate::proofs::InOrder::same_receipts, crate::proofs::InOrder::more_receipts))]
pub(crate) fn run_block(p: &mut Parts) -> Result<Option<Key>, AllocError>
    requires in_order { IsInOrder p.old }
    requires unlisted { p.old.listed ≡ None }
    ensures in_order { IsInOrder p.new }
    ensures leaves { SameParts p.old p.new }
    ensures keeps { KeepsReceipts p.old.receipts.items p.new.receipts.items }
    ensures stop { IfOk result (λ asked. IsStop asked p.new) }
    ensures unlisted { OnErr result (p.new.listed ≡ None) }
{
    while p.receipts.len() < p.calls.len() {
        if let Some(key) = go_call(p)? {
            return Ok(Some(key));
        }
    }
    settle(p)
}

/// Continues the next call. Returns the key that it asks for, or None once it has a receipt. Refused if memory ran out.
fn go_call(p: &mut Parts) -> Result<Option<Key>, AllocError>
    requires in_order { IsInOrder p.old }
    requires more { length p.old.receipts.items < length p.old.calls.items }
    ensures in_order { IsInOrder p.new }
    ensures leaves { SameParts p.old p.new }
    ensures listed { p.new.listed ≡ p.old.listed }
    ensures keeps { KeepsReceipts p.old.receipts.items p.new.receipts.items }
    ensures stop { IfOk result (λ asked. IsCallStop asked (length p.old.receipts.items) p.new) }
{
    begin(p)?;
    if let Some(key) = run_on(p)? {
        return Ok(Some(key));
    }
    end_call(p)?;
    Ok(None)
}

/// Begins the next call, if none is under way. Refused if memory ran out.
fn begin(p: &mut Parts) -> Result<(), AllocError>
    requires in_order { IsInOrder p.old }
    requires more { length p.old.receipts.items < length p.old.calls.items }
    ensures in_order { IsInOrder p.new }
    ensures leaves { SameParts p.old p.new }
    ensures listed { p.new.listed ≡ p.old.listed }
    ensures receipts { p.new.receipts ≡ p.old.receipts }
    ensures begun { OnOk result (HasBegun p.new) }
{
    make_room(p)?;
    if let Current::Next = &p.current {
        let spare = replace(&mut p.spare, SpareRun::new(p.alloc));
        let run = Run::start_in(p.alloc, spare, &p.calls[p.receipts.len()])?;
        p.current = Current::Run(run);
    }
    Ok(())
}

/// Before the first receipt: makes room for the keys of the calls. Refused if memory ran out.
fn make_room(p: &mut Parts) -> Result<(), AllocError>
    ensures { p.new ≡ p.old }
{
    if p.receipts.is_empty() {
        let count = p.calls.len().saturating_mul(KEYS_PER_CALL);
        p.touched.reserve_first(count)?;
    }
    Ok(())
}

/// Continues the call under way. Returns the key that it asks for, or None once it has ended. Refused if memory ran out.
fn run_on(p: &mut Parts) -> Result<Option<Key>, AllocError>
    requires in_order { IsInOrder p.old }
    requires begun { HasBegun p.old }
    requires more { length p.old.receipts.items < length p.old.calls.items }
    ensures in_order { IsInOrder p.new }
    ensures leaves { SameParts p.old p.new }
    ensures listed { p.new.listed ≡ p.old.listed }
    ensures receipts { p.new.receipts ≡ p.old.receipts }
    ensures stop { IfOk result (λ asked. IsRunStop asked p.new) }
{
    match &mut p.current {
        Current::Run(run) => {
            if let Some(key) = run_call(run, &mut p.touched)? {
                return Ok(Some(key));
            }
            Ok(None)
        }
        _ => Ok(None),
    }
}

/// Adds the writes of the call that has ended to the changes, and keeps its receipt. Refused if memory ran out; then some of the
/// writes may be among the changes, and it may continue.
fn end_call(p: &mut Parts) -> Result<(), AllocError>
    requires in_order { IsInOrder p.old }
    requires ended { IsCallOver p.old.current }
    requires more { length p.old.receipts.items < length p.old.calls.items }
    ensures in_order { IsInOrder p.new }
    ensures leaves { SameParts p.old p.new }
    ensures listed { p.new.listed ≡ p.old.listed }
    ensures keeps { KeepsReceipts p.old.receipts.items p.new.receipts.items }
    ensures receipts { OnOk result (length p.new.receipts.items ≡ length p.old.receipts.items + 1) }
{
    p.receipts.reserve(p.calls.len() - p.receipts.len())?;
    match replace(&mut p.current, Current::Next) {
        Current::Run(run) => {
            one_receipt();
            let EndedRun {
                answers,
                receipt,
                ..
            } = run.finish_in(&mut p.spare);
            p.spare.keep_answers(answers);
            keep(p, receipt, 0)
        }
        Current::Ended(receipt, count) => keep(p, receipt, count),
        Current::Next => unreachable!(),
    }
}

/// Adds the writes of a call from an index on to the changes, and keeps its receipt, in room that is there. Refused if memory ran
/// out; then some of the writes may be among the changes, and it may continue.
#[inline(always)]
fn keep(p: &mut Parts, receipt: Receipt, count: usize) -> Result<(), AllocError>
    requires in_order { IsInOrder (record p.old { current = Ended receipt count }) }
    requires room { vec_len p.old.receipts < vec_capacity p.old.receipts }
    ensures in_order { IsInOrder p.new }
    ensures leaves { SameParts p.old p.new }
    ensures listed { p.new.listed ≡ p.old.listed }
    ensures keeps { KeepsReceipts p.old.receipts.items p.new.receipts.items }
    ensures receipts { OnOk result (length p.new.receipts.items ≡ length p.old.receipts.items + 1) }
{
    let mut added = count;
    match add_writes(&mut p.touched, &receipt.writes, &mut added) {
        Ok(()) => {
            p.receipts.push_reserved(receipt);
            p.current = Current::Next;
            Ok(())
        }
        Err(refused) => {
            p.current = Current::Ended(receipt, added);
            Err(refused)
        }
    }
}

/// Adds writes of a call to the changes, from the one of an index on. Refused if memory ran out; then the index is that of the first
/// one that was not added.
fn add_writes(
    touched: &mut TouchedKeys,
    writes: &Writes,
    count: &mut usize,
) -> Result<(), AllocError>
    ensures bases { touched.new.bases ≡ touched.old.bases }
    ensures same { (store : Storage) → now_with touched.new.changes writes.now count.new store ≡ now_with touched.old.changes writes.now count.old store }
    ensures written { (key : List ℕ) → map.contains_key touched.new.changes key ≡ true → (map.contains_key touched.old.changes key ≡ true) ⊎ (map.contains_key writes.now key ≡ true) }
    ensures all { OnOk result (drop count.new (map.entries writes.now) ≡ []) }
{
    let entries = writes.as_slice();
    while *count < entries.len() {
        let (key, change) = &entries[*count];
        touched.add_write(key, change)?;
        *count += 1;
    }
    Ok(())
}

/// After the last call: continues until a key to which the calls only added is not known, which is returned, or until the changes
/// are listed. Refused if memory ran out.
fn settle(p: &mut Parts) -> Result<Option<Key>, AllocError>
    requires in_order { IsInOrder p.old }
    requires ended { length p.old.receipts.items ≡ length p.old.calls.items }
    requires unlisted { p.old.listed ≡ None }
    ensures in_order { IsInOrder p.new }
    ensures leaves { SameParts p.old p.new }
    ensures receipts { p.new.receipts ≡ p.old.receipts }
    ensures stop { IfOk result (λ asked. IsStop asked p.new) }
    ensures unlisted { OnErr result (p.new.listed ≡ None) }
{
    find_sums(p)?;
    if let Some(key) = next_sum(p) {
        return Ok(Some(key));
    }
    p.listed = Some(listed(&p.touched)?);
    Ok(None)
}

/// Finds the keys to which the calls only added, if that was not done. Refused if memory ran out, and then nothing changes.
fn find_sums(p: &mut Parts) -> Result<(), AllocError>
    requires in_order { IsInOrder p.old }
    requires ended { length p.old.receipts.items ≡ length p.old.calls.items }
    requires unlisted { p.old.listed ≡ None }
    ensures in_order { IsInOrder p.new }
    ensures leaves { SameParts p.old p.new }
    ensures ended { length p.new.receipts.items ≡ length p.new.calls.items }
    ensures receipts { p.new.receipts ≡ p.old.receipts }
    ensures unlisted { p.new.listed ≡ None }
    ensures found { OnOk result (IsSome p.new.sums) }
{
    if p.sums.is_some() {
        return Ok(());
    }
    p.sums = Some(sum_keys(&p.touched)?);
    p.known_sums = 0;
    Ok(())
}

/// The next key to which the calls only added, and which is not known; None if all are known.
fn next_sum(p: &mut Parts) -> Option<Key>
    requires in_order { IsInOrder p.old }
    requires sums { IsSome p.old.sums }
    requires unlisted { p.old.listed ≡ None }
    requires ended { length p.old.receipts.items ≡ length p.old.calls.items }
    ensures in_order { IsInOrder p.new }
    ensures leaves { SameParts p.old p.new }
    ensures receipts { p.new.receipts ≡ p.old.receipts }
    ensures unlisted { p.new.listed ≡ None }
    ensures next { IsNextSum result p.new }
    ensures ended { length p.new.receipts.items ≡ length p.new.calls.items }
{
    let Some(keys) = &p.sums else { unreachable!() };
    p.known_sums = first_unknown(keys, &p.touched, p.known_sums);
    match keys.get(p.known_sums) {
        Some(key) => Some(*key),
        None => None,
    }
}

/// The index of the first key, from an index on, that is not known; the number of keys or more if all are known.
fn first_unknown(keys: &[Key], touched: &TouchedKeys, from: usize) -> usize
    ensures known { (k : ℕ) (key : List ℕ) → from ≤ k → k < result → slice_get keys.now k ≡ Some key → IsSome (map.get touched.now.bases key) }
    ensures unknown { (key : List ℕ) → slice_get keys.now result ≡ Some key → map.get touched.now.bases key ≡ None }
{
    let mut at = from;
    while at < keys.len() {
        if !has_base(touched, &keys[at]) {
            return at;
        }
        at += 1;
    }
    at
}

/// Whether the host answered a key.
fn has_base(touched: &TouchedKeys, key: &Key) -> bool
    ensures { result ≡ is_some (map.get touched.now.bases key.now) }
{
    match touched.get(key) {
        Some(slot) => slot.base.is_some(),
        None => false,
    }
}

/// Keeps what the host has at a key that is not known. Refused if memory ran out, and then nothing changes.
pub(crate) fn keep_base(
    p: &mut Parts,
    key: Key,
    content: Option<StoredValue>,
) -> Result<(), AllocError>
    requires in_order { IsInOrder p.old }
    requires unknown { map.get p.old.touched.bases key ≡ None }
    requires unlisted { p.old.listed ≡ None }
    ensures in_order { IsInOrder p.new }
    ensures ok { OnOk result (p.new ≡ record p.old { touched = record p.old.touched { bases = map.insert p.old.touched.bases key content } }) }
    ensures err { OnErr result (p.new ≡ p.old) }
{
    p.touched.set_base(key, content)
}
