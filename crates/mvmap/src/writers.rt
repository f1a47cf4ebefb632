//! The slots at one key.

ghost use Rattle.std.specs.Prelude.{◌≡◌, ◌≤◌, ◌==◌, ℕ, [], IfErr, IfOk, IsSome, Ok, OnErr, OnOk, Some, insert, length, if◌then◌else◌};
ghost use Rattle.std.specs.Option.{option_map, unwrap_or};
ghost use Rattle.rv_ledger.specs.Entries.{IsAt};
ghost use Rattle.mvmap.specs.Writers.{AreWritersAscending, IsWriterGap, slot_of};
ghost use Rattle.mvmap.specs.declared.slot.Slot.TheVariants.{Vacant};

use crate::slot::Slot;
use smallvec::SmallVec;
use std::alloc::{AllocError, Global};
use std::marker::Model;

/// How many slots take no memory of their own. Most keys are written by one call or two.
const IN_PLACE: usize = 2;

/// The slots at one key, ascending by the index of the call. Up to two take no memory of their own.
#[derive(Drop)]
pub(crate) struct WriterSlots {
    slots: SmallVec<(u16, Slot), IN_PLACE>,
}

impl Model for WriterSlots {
    ghost use Rattle.mvmap.specs.Writers.{AreWritersAscending, ByWriter};

    ghost Value = { ByWriter };

    ghost view = { λ w. w.slots.items };

    ghost invariant = { λ w. AreWritersAscending w.slots.items };
}

impl WriterSlots {
    /// No slots. Takes no memory.
    #[tactic(auto, using(crate::proofs::Searches::no_writers))]
    pub(crate) fn new(alloc: Global) -> WriterSlots
        ensures { result ≡ [] }
    {
        WriterSlots {
            slots: SmallVec::new(alloc),
        }
    }

    /// The slots, each after the index of its call.
    pub(crate) fn as_slice(&self) -> &[(u16, Slot)]
        ensures all { result.now ≡ self.now }
        ensures ascending { AreWritersAscending self.now }
    {
        self.slots.as_slice()
    }

    /// Makes a vacant slot of a call, if it has none. Refused if memory ran out, and then nothing changes.
    pub(crate) fn open(&mut self, writer: u16) -> Result<(), AllocError>
        ensures ok { OnOk result ((w : ℕ) → slot_of self.new w ≡ (if writer == w then Some (unwrap_or (slot_of self.old w) Vacant) else slot_of self.old w)) }
        ensures err { OnErr result (self.new ≡ self.old) }
        ensures succeeds { IsSome (slot_of self.old writer) → result ≡ Ok tt }
    {
        match self.search(writer) {
            Ok(_) => Ok(()),
            Err(at) => Ok(insert_vacant(&mut self.slots, at, writer)?),
        }
    }

    /// Writes into the slot of a call; nothing changes if it has none.
    pub(crate) fn put(&mut self, writer: u16, slot: Slot)
        ensures { (w : ℕ) → slot_of self.new w ≡ (if writer == w then option_map (λ _. slot) (slot_of self.old w) else slot_of self.old w) }
    {
        match self.search(writer) {
            Ok(at) => self.slots.as_mut_slice()[at] = (writer, slot),
            Err(_) => {}
        }
    }

    /// The place of the slot of a call, or as an Err the place at which it would go. The last slot is looked at first: most calls
    /// come in block order, so the slot is the last one or goes after it.
    fn search(&self, writer: u16) -> Result<usize, usize>
        ensures found { IfOk result (IsAt self.now writer) }
        ensures absent { IfErr result (IsWriterGap self.now writer) }
    {
        let slots = self.slots.as_slice();
        match slots.last() {
            Some(slot) if slot.0 < writer => Err(slots.len()),
            Some(slot) if slot.0 == writer => Ok(slots.len() - 1),
            _ => slots.binary_search_by_key(&writer, |slot| slot.0),
        }
    }
}

/// Inserts a vacant slot of a call before the slot at a place, or at the end. Most go at the end, so that no slot is moved.
/// Refused if memory ran out, and then nothing changes.
fn insert_vacant(
    slots: &mut SmallVec<(u16, Slot), IN_PLACE>,
    at: usize,
    writer: u16,
) -> Result<(), AllocError>
    requires { at ≤ length slots.old.items }
    ensures ok { OnOk result (slots.new.items ≡ insert slots.old.items at (writer, Vacant)) }
    ensures err { OnErr result (slots.new ≡ slots.old) }
{
    let slot = (writer, Slot::Vacant);
    if at == slots.len() {
        slots.push(slot)?;
    } else {
        slots.insert(at, slot)?;
    }
    Ok(())
}
