//! A replay of one call.

ghost use Rattle.std.specs.Prelude.{◌≡◌};
ghost use Rattle.debugger.specs.Replay.{are_bytes_in_memory};

use crate::content::content_with;
use crate::ending::end_line;
use crate::fault::ReplayFault;
use crate::place::place_text;
use crate::running::{go_run, run_after, step_run};
use crate::storage::{first_receipts, store_left};
use elf32::extent::{END_ADDRESS, FIRST_ADDRESS};
use rv_isa::Regs;
use rv_ledger::{Call, Key, Outcome, Store, Value};
use rv_step::{Machine, Run, Stage};
use std::alloc::{AllocError, Global};
use std::marker::Model;

/// A replay of one call of a block, over the storage that the calls before it left. It is at a moment: the number of steps that
/// were made.
#[derive(Drop)]
pub struct Replay {
    alloc: Global,
    call: Call,
    store: Store,
    run: Run,
    moment: u64,
}

impl Model for Replay {
    ghost use Rattle.std.specs.Coded.{codes};
    ghost use Rattle.rv_ledger.specs.contracts.store.Store.{the_row as store_row};
    ghost use Rattle.debugger.specs.Replay.{ReplayState};
    ghost use Rattle.debugger.specs.ReplayMoment.{IsReplay};

    ghost Value = { ReplayState };

    ghost coded = { Prim.hlevel (codes, store_row.coded) };

    ghost view = { λ r. record { call = r.call; store = r.store; moment = r.moment } };

    ghost invariant = { λ r. IsReplay r.call r.store r.run r.moment };
}

impl Replay {
    ghost use Rattle.std.specs.Prelude.{◌≡◌, ◌<◌, ◌≤◌, ◌^◌, ◌++◌, false, true, length, not, IfErr, IfOk, MatchResult, OnErr, OnOk};
    ghost use Rattle.std.specs.String.{string_bytes};
    ghost use Rattle.debugger.specs.declared.fault.ReplayFault.TheVariants.{AtEnd, AtStart, Memory};
    ghost use Rattle.debugger.specs.Further.{GoesFurther};
    ghost use Rattle.debugger.specs.More.{GoesTo, RunsToChange, content_now, end_line, has_changed};
    ghost use Rattle.debugger.specs.Replay.{GoesOnBefore, Moves, Opens, RunsTo, Shows, are_bytes_in_memory, bytes_seen, has_pc, is_at_end, next_of, opened, previous_of, standing_machine, where_text};

    /// Opens the replay of a call of an outcome's job, at moment 0. `index` counts the calls from 0. The replay is over the
    /// job's storage with the writes of the receipts before the call. Refused as NoSuchCall if there is no call at that index,
    /// and as Memory if memory ran out.
    pub fn open(alloc: Global, outcome: &Outcome, index: usize) -> Result<Replay, ReplayFault>
        ensures { Opens result (opened outcome.now index) }
    {
        let Some(call) = outcome.job.block.calls().get(index) else {
            return Err(ReplayFault::NoSuchCall);
        };
        let before = first_receipts(outcome.receipts.as_slice(), index);
        let Ok(store) = store_left(&outcome.job.store, before) else {
            return Err(ReplayFault::Memory);
        };
        match Replay::start(alloc, call, store) {
            Ok(replay) => Ok(replay),
            Err(AllocError) => Err(ReplayFault::Memory),
        }
    }

    /// The replay of a call over a storage, at moment 0. Refused if memory ran out.
    #[tactic(auto, unfolding(rv_step::specs::Moment::moment_from))]
    pub fn start(alloc: Global, call: &Call, store: Store) -> Result<Replay, AllocError>
        ensures { IfOk result (λ r. r ≡ record { call = call.now; store = store; moment = 0 }) }
    {
        let _gas = call.gas();
        Ok(Replay {
            alloc,
            call: call.copy()?,
            store,
            run: Run::start(alloc, call)?,
            moment: 0,
        })
    }

    /// Goes to the next moment. Refused as AtEnd if the call is over, and as Memory if memory ran out; then nothing changes.
    pub fn step(&mut self) -> Result<(), ReplayFault>
        ensures { Moves AtEnd result (next_of self.old) self.old self.new }
    {
        if self.is_at_end() {
            return Err(ReplayFault::AtEnd);
        }
        match step_run(self.alloc, &mut self.run, &self.store) {
            Ok(()) => {
                self.moment += 1;
                Ok(())
            }
            Err(AllocError) => Err(ReplayFault::Memory),
        }
    }

    /// Goes to the moment before, by running the call again from its start. Refused as AtStart at moment 0, and as Memory if
    /// memory ran out; then nothing changes.
    pub fn back(&mut self) -> Result<(), ReplayFault>
        ensures { Moves AtStart result (previous_of self.old) self.old self.new }
    {
        if self.moment == 0 {
            return Err(ReplayFault::AtStart);
        }
        let moment = self.moment - 1;
        match run_after(self.alloc, &self.call, &self.store, moment) {
            Ok(run) => {
                self.run = run;
                self.moment = moment;
                Ok(())
            }
            Err(AllocError) => Err(ReplayFault::Memory),
        }
    }

    /// Goes to the first later moment at which the pc is the given one or the call is over. Refused as AtEnd if the call is
    /// over already; then nothing changes. Refused as Memory if memory ran out; the replay is then at a moment before that one.
    pub fn run_to(&mut self, pc: u32) -> Result<(), ReplayFault>
        ensures { RunsTo (has_pc pc) result self.old self.new }
    {
        self.go_further(Some(pc), u64::MAX)?;
        while !self.is_at_end() && self.pc() != pc {
            self.go_further(Some(pc), u64::MAX)?;
        }
        Ok(())
    }

    /// Goes to a later moment: by at most `most` steps, and not past the first moment at which the call is over or its pc is
    /// `stop`. Refused as AtEnd if the call is over already, and as Memory if memory ran out; then nothing changes.
    fn go_further(&mut self, stop: Option<u32>, most: u64) -> Result<(), ReplayFault>
        requires { 0 < most }
        ensures { GoesFurther stop most result self.old self.new }
    {
        if self.is_at_end() {
            return Err(ReplayFault::AtEnd);
        }
        match go_run(self.alloc, &mut self.run, &self.store, stop, most) {
            Ok(made) => {
                self.moment += made;
                Ok(())
            }
            Err(AllocError) => Err(ReplayFault::Memory),
        }
    }

    /// Goes to a moment: forward by steps, or back by running the call again from its start. Refused as AtEnd if the call is
    /// over before it; then nothing changes. Refused as Memory if memory ran out; the replay is then at its old moment, or at a
    /// later one on the way.
    pub fn go_to(&mut self, moment: u64) -> Result<(), ReplayFault>
        ensures { GoesTo moment result self.old self.new }
    {
        if moment < self.moment() {
            return self.go_back_to(moment);
        }
        self.go_on_to(moment)
    }

    /// Goes to a moment that is not before this one, as `go_to` does.
    fn go_on_to(&mut self, moment: u64) -> Result<(), ReplayFault>
        requires { self.old.moment ≤ moment }
        ensures { GoesTo moment result self.old self.new }
    {
        let first = self.moment();
        while self.moment() < moment {
            if self.is_at_end() {
                self.go_back_to(first)?;
                return Err(ReplayFault::AtEnd);
            }
            self.go_further(None, moment - self.moment())?;
        }
        Ok(())
    }

    /// Goes to a moment that is not after this one, by running the call again from its start. Refused as Memory if memory ran
    /// out; then nothing changes.
    fn go_back_to(&mut self, moment: u64) -> Result<(), ReplayFault>
        requires { moment ≤ self.old.moment }
        ensures ok { OnOk result (self.new ≡ record self.old { moment = moment }) }
        ensures err { IfErr result (λ e. e ≡ Memory) }
        ensures same { OnErr result (self.new ≡ self.old) }
    {
        match run_after(self.alloc, &self.call, &self.store, moment) {
            Ok(run) => {
                self.run = run;
                self.moment = moment;
                Ok(())
            }
            Err(AllocError) => Err(ReplayFault::Memory),
        }
    }

    /// Goes to the first later moment at which one of `len` bytes from an address on differs from now, or the call is over.
    /// Refused as BadRange if the range is not in memory, and otherwise as AtEnd if the call is over already; then nothing
    /// changes. Refused as Memory if memory ran out; the replay is then at a moment before that one.
    pub fn run_to_change(&mut self, address: u32, len: u32) -> Result<(), ReplayFault>
        ensures { RunsToChange address len result self.old self.new }
    {
        if !is_in_memory(address, len) {
            return Err(ReplayFault::BadRange);
        }
        if self.is_at_end() {
            return Err(ReplayFault::AtEnd);
        }
        let Ok(mut before) = vec![in self.alloc; 0u8; len as usize] else {
            return Err(ReplayFault::Memory);
        };
        let Ok(mut now) = vec![in self.alloc; 0u8; len as usize] else {
            return Err(ReplayFault::Memory);
        };
        self.machine().memory.inspect(address, &mut before);
        self.run_while_same(address, len, before.as_slice(), &mut now)
    }

    /// Goes to the first later moment at which `len` bytes from an address on differ from `before`, or the call is over. The
    /// call must not be over yet. `now` has room for the bytes. Refused as Memory if memory ran out; the replay is then at a
    /// moment before that one.
    fn run_while_same(
        &mut self,
        address: u32,
        len: u32,
        before: &[u8],
        now: &mut [u8],
    ) -> Result<(), ReplayFault>
        requires going { is_at_end self.old ≡ false }
        requires memory { are_bytes_in_memory address len ≡ true }
        requires room { length now.old ≡ len }
        ensures { RunsTo (has_changed address len before.now) result self.old self.new }
    {
        self.step()?;
        while !self.is_at_end() && self.has_bytes(address, len, before, now) {
            self.step()?;
        }
        Ok(())
    }

    /// Whether `len` bytes of memory from an address on are these. `now` has room for them.
    fn has_bytes(&self, address: u32, len: u32, bytes: &[u8], now: &mut [u8]) -> bool
        requires memory { are_bytes_in_memory address len ≡ true }
        requires room { length now.old ≡ len }
        ensures value { has_changed address len bytes.now (standing_machine self.now) ≡ not result }
        ensures room { length now.new ≡ length now.old }
    {
        self.machine().memory.inspect(address, now);
        *now == *bytes
    }

    /// The line of how the call ends, by running it again from its start. Refused if memory ran out.
    pub(crate) fn end_line(&self) -> Result<String, AllocError>
        ensures { IfOk result (λ t. string_bytes t ≡ end_line self.now) }
    {
        let _gas = self.call.gas();
        end_line(self.alloc, &self.call, &self.store)
    }

    /// What a READ of a key would find now: what the storage has, with the call's own change of the key.
    pub(crate) fn content(&self, key: &Key) -> Option<Value>
        ensures { result ≡ content_now self.now key.now }
    {
        content_with(self.machine().own.get(key), self.store.get(key))
    }

    /// The moment: the number of steps that were made. The call is not over at any moment before it.
    pub fn moment(&self) -> u64
        ensures value { result ≡ self.now.moment }
        ensures earlier { GoesOnBefore self.now }
    {
        self.moment
    }

    /// Whether the call is over.
    pub(crate) fn is_at_end(&self) -> bool
        ensures { result ≡ is_at_end self.now }
    {
        matches!(self.run.stage(), Stage::Ended(_, _))
    }

    /// The machine at the moment.
    fn machine(&self) -> &Machine
        ensures { result.now ≡ standing_machine self.now }
    {
        self.run.machine()
    }

    /// The address of the next instruction, or of the one that ended the call.
    pub fn pc(&self) -> u32
        ensures { result ≡ (standing_machine self.now).pc }
    {
        self.machine().pc
    }

    /// The 32 registers at the replay's present moment, x0 first.
    pub fn regs(&self) -> &Regs
        ensures { result.now ≡ (standing_machine self.now).regs }
    {
        &self.machine().regs
    }

    /// `len` bytes of memory from an address on, whatever the rights of their pages. Memory is 0x00010000 to 0x0010ffff.
    /// Refused as BadRange if the range is not in memory, even if it is empty, and as Memory if memory ran out.
    pub fn bytes(&self, alloc: Global, address: u32, len: u32) -> Result<Vec<u8>, ReplayFault>
        ensures { Shows (λ v. v.items) result (bytes_seen self.now address len) }
    {
        if !is_in_memory(address, len) {
            return Err(ReplayFault::BadRange);
        }
        let Ok(mut bytes) = vec![in alloc; 0u8; len as usize] else {
            return Err(ReplayFault::Memory);
        };
        self.machine().memory.inspect(address, &mut bytes);
        Ok(bytes)
    }

    /// Appends the moment in decimal, the pc in eight hex digits, and the text of the word there, or `fetch-fault` if it may
    /// not be fetched. One blank separates them. Refused as Memory if memory ran out; the string is then as before.
    pub fn where_text(&self, text: &mut String) -> Result<(), ReplayFault>
        ensures { MatchResult result
            (λ _. string_bytes text.new ≡ string_bytes text.old ++ where_text self.now)
            (λ e. (e ≡ Memory) × (string_bytes text.new ≡ string_bytes text.old)) }
    {
        let Ok(place) = place_text(self.alloc, self.moment, self.machine()) else {
            return Err(ReplayFault::Memory);
        };
        match text.push_str(place.as_str()) {
            Ok(()) => Ok(()),
            Err(AllocError) => Err(ReplayFault::Memory),
        }
    }
}

/// Whether `len` bytes from an address on lie in memory.
fn is_in_memory(address: u32, len: u32) -> bool
    ensures { result ≡ are_bytes_in_memory address len }
{
    FIRST_ADDRESS <= address && u64::from(address) + u64::from(len) <= u64::from(END_ADDRESS)
}
