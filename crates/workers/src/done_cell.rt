//! The cell of a block: whether an ask was answered Done. Idle workers look at it outside the lock.

ghost use Rattle.std.specs.Prelude.{◌≡◌};
ghost use Rattle.workers.specs.DoneCell.{IsOneWay, IsSeen};

use crate::book::AllDone;
use crate::gate::Spin;
use crossbeam_utils::atomic::seq_cell::{Pass, RuledSeqCell};
use crossbeam_utils::rule::{Outcome, Protocol};
use std::alloc::{AllocError, Global};
use std::sync::Wait;
use std::thread::yield_now;

/// How often an idle worker looks at the cell, at most, before it asks for work again.
pub const LOOK_LIMIT: usize = 64;

/// What the cell shows while its block runs.
const RUNNING: u64 = 0;

/// What the cell shows once the block is done.
const DONE: u64 = 1;

/// The rule of the cell: running or done, and no way back from done. A pass knows what it saw last.
pub(crate) struct OneWay;

impl Protocol<[u64; 1], u64> for OneWay {
    ghost holds = { IsOneWay };

    ghost first = { 0 };
}

/// After a call the pass has seen what the cell shows, and it is no less than what it had seen before.
struct Sees;

impl Outcome<[u64; 1], u64> for Sees {
    ghost then = { IsSeen };
}

/// A worker's pass of the cell. It takes no room.
pub type DonePass = Pass<[u64; 1], u64>;

/// A cell that shows whether its block is done.
#[derive(Drop)]
pub struct DoneCell {
    cell: RuledSeqCell<[u64; 1], u64, OneWay, 1>,
}

impl DoneCell {
    ghost use Rattle.std.specs.Prelude.{◌≡◌, ◌+◌, ◌<◌, ◌≤◌, ◌↔◌, true};
    ghost use Rattle.crossbeam_utils.specs.Seq.{IsSamePass, cell_view};
    ghost use Rattle.workers.specs.DoneCell.{IsPassOf};

    /// A cell that shows running; refused if memory ran out.
    pub fn new(alloc: Global) -> Result<DoneCell, AllocError> {
        let (cell, _) = RuledSeqCell::<[u64; 1], u64, OneWay, 1>::ruled(alloc, [RUNNING])?;
        Ok(DoneCell { cell })
    }

    /// A pass that has seen running.
    #[tactic(auto, using(crate::proofs::Ways::admits))]
    pub fn pass(&self) -> DonePass
        ensures cell { IsPassOf self.now result }
        ensures seen { cell_view result ≡ 0 }
    {
        self.cell.pass()
    }

    /// Whether the cell shows done. A pass that has seen done sees it at every later look.
    #[tactic(auto, using(crate::proofs::Ways::looks))]
    pub(crate) fn shows_done<R: Wait>(&self, rt: &R, pass: &mut DonePass) -> bool
        requires cell { IsPassOf self.now pass.old }
        ensures cell { IsSamePass pass.old pass.new }
        ensures stays { cell_view pass.old ≡ 1 → result ≡ true }
        ensures shown { (result ≡ true) ↔ (cell_view pass.new ≡ 1) }
    {
        self.cell.load_as::<Sees, R>(rt, pass)[0] == DONE
    }

    /// Writes done into the cell, after a book answered that all is done.
    #[tactic(auto, using(crate::proofs::Ways::ends))]
    pub(crate) fn set_done<R: Wait>(&self, rt: &R, pass: &mut DonePass, _is_done: AllDone)
        requires cell { IsPassOf self.now pass.old }
        ensures cell { IsSamePass pass.old pass.new }
        ensures shown { cell_view pass.new ≡ 1 }
    {
        let _ = self.cell.swap_as::<Sees, R>(rt, pass, [DONE]);
    }

    /// Looks at the cell as often as `spin` says, and spins after each look that does not show done. Returns at once after
    /// a look that shows done. After 64 others it lets another thread run. Returns how often it looked.
    pub fn look<R: Wait, S: Spin>(&self, rt: &R, pass: &mut DonePass, spin: &mut S) -> usize
        requires cell { IsPassOf self.now pass.old }
        ensures cell { IsSamePass pass.old pass.new }
        ensures stays { cell_view pass.old ≡ 1 → cell_view pass.new ≡ 1 }
        ensures most { result ≤ 64 }
    {
        let mut looked = 0;
        for _ in 0..spin.looks() {
            if self.look_once(rt, pass, &mut looked) {
                return looked;
            }
            spin.spin();
        }
        if looked >= LOOK_LIMIT {
            yield_now();
        }
        looked
    }

    /// Makes one of at most 64 looks, and counts it.
    #[inline(always)]
    fn look_once<R: Wait>(&self, rt: &R, pass: &mut DonePass, looked: &mut usize) -> bool
        requires cell { IsPassOf self.now pass.old }
        requires most { looked.old < 64 }
        ensures cell { IsSamePass pass.old pass.new }
        ensures stays { cell_view pass.old ≡ 1 → cell_view pass.new ≡ 1 }
        ensures counted { looked.new ≡ looked.old + 1 }
    {
        *looked += 1;
        self.shows_done(rt, pass)
    }
}
