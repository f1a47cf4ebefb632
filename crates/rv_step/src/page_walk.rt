//! The loop over the instructions of one page of code for a run that stops at a pc or after a number of steps. The loop of
//! page_loop.rt makes neither test, so the two are separate.

ghost use Rattle.std.specs.Prelude.{◌≡◌, ◌<◌, ◌≤◌, ◌+◌, ◌%◌, ◌^◌, ◌==◌, ℕ};
ghost use Rattle.rv_mem.specs.Code.{HasCode, IsCode, page_of};
ghost use Rattle.rv_step.specs.Until.{is_at};
ghost use Rattle.rv_step.specs.Walks.{Walks};

use crate::machine::Machine;
use crate::page_loop::{PAGE, Position, ToStop};
use elf32::{BasePages, Page};
use rv_mem::{code_page, word_in};

impl Machine {
    /// Makes steps in the page of the pc, if it is a page of code: at most `most`. It stops at the first moment at which the pc
    /// is `stop`, lies in another page, or is that of an instruction that is not made here. Returns the number of steps.
    pub(crate) fn walk(&mut self, program: &BasePages, stop: Option<u32>, most: u64) -> u64
        requires { HasCode self.old.memory program.now }
        ensures within { result ≤ most }
        ensures walks { Walks stop result self.old self.new }
    {
        let pc = self.pc;
        if pc % 4 != 0 {
            return 0;
        }
        match code_page(program, pc) {
            Some(page) => self.walk_in_page(page, pc - pc % PAGE as u32, stop, most),
            None => 0,
        }
    }

    /// The same in a page of code, from this first address on.
    #[inline(never)]
    fn walk_in_page(&mut self, code: &Page, first: u32, stop: Option<u32>, most: u64) -> u64
        requires code { IsCode self.old.memory first code.now }
        requires even { self.old.pc % 4 ≡ 0 }
        requires page { first ≡ page_of self.old.pc }
        ensures within { result ≤ most }
        ensures walks { Walks stop result self.old self.new }
    {
        let stop = stop_offset(stop, first);
        let mut position = Position {
            offset: u64::from(self.pc.wrapping_sub(first)),
            gas: self.gas.left(),
        };
        let mut made = 0;
        while made < most && position.offset < PAGE && position.offset != stop {
            let word = word_in(code, position.offset as usize);
            if !self.step_word::<ToStop>(word, first, &mut position) {
                self.stand_at(first, position);
                return made;
            }
            made += 1;
        }
        self.stand_at(first, position);
        made
    }
}

/// The distance of the pc `stop` from the first address of a page. If there is no such pc, it is a distance that lies in no
/// page.
fn stop_offset(stop: Option<u32>, first: u32) -> u64
    ensures { (offset : ℕ) → offset < 4096 → is_at stop ((first + offset) % 2 ^ 32) ≡ (offset == result) }
{
    match stop {
        Some(pc) => u64::from(pc.wrapping_sub(first)),
        None => u64::MAX,
    }
}

/// Whether a pc is the one to stop at.
pub(crate) fn is_at(stop: Option<u32>, pc: u32) -> bool
    ensures { result ≡ is_at stop pc }
{
    match stop {
        Some(stop) => pc == stop,
        None => false,
    }
}
