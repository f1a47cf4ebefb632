//! Runs, cores and replays that continue while memory is refused.

ghost use Rattle.stm_state.specs.Steps.{Record};
ghost use Rattle.stm_core.specs.CoreState.{IsDue};

use crate::calls::has_text;
use crate::refused::exhausted::attempts::{Attempt, Tried, Way, comes_right, done, refused};
use crate::refused::images::{
    COUNT, ECHO, KEY, LEN, NotMade, PUT, TOUCH, TOUCH_MANY, assembled_call, image_of, job_of,
    outcome_of_source,
};
use crate::refused::rows::{K_1, LATE_WRITER, Row, WITHDRAWN_WRITE};
use debugger::{Replay, ReplayFault};
use read_set::Origin;
use rv_ledger::{End, Job, Key, Outcome, Receipt, Store, Value};
use rv_mem::{Fault, Memory};
use rv_step::{EndedRun, Pause, Run};
use scheduler::COUNT_LIMIT;
use std::alloc::Global;
use std::process::Abort;
use stm_core::{Core, DriveFault, NextStep, RecordFault, Refused, drive};

/// The address of the word of TOUCH.
const CELL: u32 = 0x0002_0000;

/// How many pages are written to. There is room for the first ones from the start.
const PAGES: u32 = 60;

/// Stores to pages one after another, the last one first.
#[derive(Drop)]
struct Storing {
    memory: Memory,
    left: u32,
}

/// Stores to the first word of the page that is this many pages after the page with the word of TOUCH.
fn store(memory: &mut Memory, page: u32) -> Tried {
    let address = CELL.wrapping_add(page.wrapping_mul(4096));
    let before = memory.load32(address);
    let answer = memory.store32(address, 8);
    let after = memory.load32(address);
    match answer {
        Ok(()) => done(after == Ok(8)),
        Err(fault) => refused(fault == Fault::Memory && after == before),
    }
}

impl Attempt for Storing {
    fn attempt(&mut self, _alloc: Global) -> Tried {
        for _ in 0..PAGES {
            match store(&mut self.memory, self.left) {
                Tried::Done => {}
                other => return other,
            }
            if self.left == 0 {
                return Tried::Done;
            }
            self.left -= 1;
        }
        Tried::Wrong
    }
}

/// The instructions of a run, one by one.
impl Attempt for Run {
    fn attempt(&mut self, _alloc: Global) -> Tried {
        for _ in 0..1000 {
            if !self.is_running() {
                return Tried::Done;
            }
            if self.step_one().is_err() {
                return Tried::Refused;
            }
        }
        Tried::Wrong
    }
}

/// A run of a source at its start.
fn run_of(alloc: Global, source: &str, input: &[u8]) -> Result<Run, NotMade> {
    let call = assembled_call(alloc, source, input)?;
    Ok(Run::start(alloc, &call)?)
}

/// What a receipt shows of a call that returned: its gas, its pc, the number in a register, and the length of its output.
type Shown = (u32, u32, Option<u32>, usize);

/// A run that ends without asking for a key, ended.
fn ended(mut run: Run) -> Result<EndedRun, NotMade> {
    match run.go() {
        Ok(Pause::Ended) => Ok(run.finish()),
        _ => Err(NotMade),
    }
}

/// What the receipt of a run that ends without asking for a key shows.
fn end_of(run: Run, register: usize) -> Result<Option<Shown>, NotMade> {
    Ok(shown(&ended(run)?.receipt, register))
}

/// What a receipt shows of a call that returned.
fn shown(receipt: &Receipt, register: usize) -> Option<Shown> {
    let number = receipt.regs.values().get(register).copied();
    let len = receipt.out.bytes().len();
    (receipt.end == End::Returned).then_some((receipt.gas, receipt.pc, number, len))
}

/// What the receipt of TOUCH_MANY shows.
const TOUCHED: Option<Shown> = Some((689, TOUCHED_PC, Some(1830), 4));

/// Whether single stores are made, also the one of TOUCH (`touch_growth_refused`).
fn stores_alone(alloc: Global, way: Way) -> Result<bool, NotMade> {
    let memory = Memory::of(alloc, &image_of(alloc, TOUCH)?, &[])?;
    let left = PAGES - 1;
    Ok(comes_right(alloc, &mut Storing { memory, left }, way))
}

/// Whether the instructions of a run of TOUCH_MANY, which store, are made one by one.
fn stores_in_run(alloc: Global, way: Way) -> Result<bool, NotMade> {
    let mut run = run_of(alloc, TOUCH_MANY, b"")?;
    let is_made = comes_right(alloc, &mut run, way);
    let end = end_of(run, 29)?;
    Ok(is_made && end == TOUCHED)
}

/// Whether stores are made: single ones, and as instructions.
pub fn stores(alloc: Global, way: Way) -> Result<bool, NotMade> {
    Ok(stores_alone(alloc, way)? && stores_in_run(alloc, way)?)
}

/// A run that asks for one key, and gets its value.
#[derive(Drop)]
struct Going {
    run: Run,
    value: Option<Value>,
}

/// Continues a run to its end.
fn go_to_end(run: &mut Run) -> Tried {
    match run.go() {
        Ok(pause) => done(matches!(pause, Pause::Ended)),
        Err(_) => Tried::Refused,
    }
}

impl Attempt for Going {
    fn attempt(&mut self, alloc: Global) -> Tried {
        match self.run.go() {
            Ok(Pause::Ask(_)) => {
                let answer = self.run.answer(self.value.as_ref(), Origin::base(alloc));
                if answer.is_err() {
                    return Tried::Refused;
                }
                go_to_end(&mut self.run)
            }
            Ok(Pause::Ended) => Tried::Done,
            Err(_) => Tried::Refused,
        }
    }
}

/// Whether a run of a source, which may ask for one key and gets its value, reaches an end that shows this.
fn goes_to(
    alloc: Global,
    way: Way,
    source: &str,
    value: Option<Value>,
    register: usize,
    wanted: Option<Shown>,
) -> Result<bool, NotMade> {
    let run = run_of(alloc, source, KEY)?;
    let mut going = Going { run, value };
    let is_made = comes_right(alloc, &mut going, way);
    let end = end_of(going.run, register)?;
    Ok(is_made && end == wanted)
}

/// Whether runs of TOUCH_MANY, LEN (the row `length`), COUNT and ECHO reach their ends. ECHO returns 32 bytes, which take memory
/// of their own.
pub fn runs(alloc: Global, way: Way) -> Result<bool, NotMade> {
    let long = Value::of(&[0x11; 64]);
    let length = Some((214, 0x0001_0014, Some(0xffff_fffe), 0));
    let count = Some((639, 0x0001_0034, Some(1), 0));
    let echo = Some((43, 0x0001_0004, Some(32), 32));
    Ok(
        goes_to(alloc, way, TOUCH_MANY, None, 29, TOUCHED)?
            && goes_to(alloc, way, LEN, long, 10, length)?
            && goes_to(alloc, way, COUNT, None, 5, count)?
            && goes_to(alloc, way, ECHO, None, 11, echo)?,
    )
}

/// The moment before the last instruction of TOUCH_MANY.
const TOUCHED_MOMENT: u64 = 554;

/// The address of that instruction.
const TOUCHED_PC: u32 = 0x0001_005c;

/// A replay of TOUCH_MANY goes to that moment, and then back by one.
impl Attempt for Replay {
    fn attempt(&mut self, _alloc: Global) -> Tried {
        if self.moment() < TOUCHED_MOMENT {
            if let Err(fault) = self.run_to(TOUCHED_PC) {
                let is_before = self.moment() < TOUCHED_MOMENT;
                return refused(fault == ReplayFault::Memory && is_before);
            }
        }
        match self.back() {
            Ok(()) => done(self.moment() == TOUCHED_MOMENT - 1),
            Err(fault) => {
                let has_stayed = self.moment() == TOUCHED_MOMENT;
                refused(fault == ReplayFault::Memory && has_stayed)
            }
        }
    }
}

/// A replay of TOUCH_MANY.
fn replay(alloc: Global) -> Result<Replay, NotMade> {
    Ok(Replay::open(alloc, &outcome_of_source(alloc, TOUCH_MANY)?, 0)?)
}

/// Whether a replay moves forward and back.
pub fn replays(alloc: Global, way: Way) -> Result<bool, NotMade> {
    Ok(comes_right(alloc, &mut replay(alloc)?, way))
}

/// A core of two calls of PUT, of which two workers have one each: room for a read of the second one's run, and handing
/// in the first one's.
#[derive(Drop)]
struct Recording {
    core: Core,
    has_room: bool,
    run: Option<EndedRun>,
}

/// Makes room for a read of the second worker's run. Returns whether the room is there.
fn make_room(core: &mut Core) -> bool {
    core.workers() > 1 && core.room_for_read(1).is_ok()
}

/// Hands in the run that the first worker owes, and keeps the run if it is refused.
fn record(alloc: Global, core: &mut Core, kept: &mut Option<EndedRun>) -> Tried
    requires { IsDue 0 Record core.old }
{
    let Some(run) = kept.take() else {
        return Tried::Wrong;
    };
    match core.record(alloc, 0, run) {
        Ok(_) => Tried::Done,
        Err(Refused { fault, run }) => {
            *kept = Some(run);
            refused(fault == RecordFault::Memory)
        }
    }
}

impl Attempt for Recording {
    fn attempt(&mut self, alloc: Global) -> Tried {
        if !self.has_room {
            self.has_room = make_room(&mut self.core);
            return if self.has_room {
                Tried::Done
            } else {
                Tried::Refused
            };
        }
        if self.core.workers() == 0 || self.core.counts(0).steps >= COUNT_LIMIT {
            return Tried::Wrong;
        }
        let NextStep::Run { .. } = self.core.doing(0) else {
            return Tried::Wrong;
        };
        record(alloc, &mut self.core, &mut self.run)
    }
}

/// The ended run of a call of PUT.
fn ended_put(alloc: Global) -> Result<EndedRun, NotMade> {
    ended(run_of(alloc, PUT, K_1)?)
}

/// Makes the step that a worker owes, who runs PUT.
fn step(rt: &impl Abort, alloc: Global, core: &mut Core, worker: usize) -> Result<(), NotMade> {
    assert!(rt; worker < core.workers());
    assert!(rt; core.counts(worker).steps < COUNT_LIMIT);
    match core.doing(worker) {
        NextStep::Ask => {
            let _ = core.ask(worker);
        }
        NextStep::Run { .. } => hand_in(alloc, core, worker)?,
        NextStep::Make { kind, .. } => core.make(worker, kind)?,
    }
    Ok(())
}

/// Hands in the ended run of a worker, who runs PUT.
fn hand_in(alloc: Global, core: &mut Core, worker: usize) -> Result<(), NotMade>
    requires { IsDue worker Record core.old }
{
    let run = ended_put(alloc)?;
    match core.record(alloc, worker, run) {
        Ok(_) => Ok(()),
        Err(_) => Err(NotMade),
    }
}

/// Makes the steps of a list of workers, who run PUT.
fn follow(
    rt: &impl Abort,
    alloc: Global,
    core: &mut Core,
    schedule: &[usize],
) -> Result<(), NotMade> {
    for worker in schedule {
        step(rt, alloc, core, *worker)?;
    }
    Ok(())
}

/// Whether a storage has the value of PUT at its key.
fn has_put(store: &Store) -> bool {
    let mut key = [0; 32];
    key[31] = 1;
    match store.get(&Key::new(key)) {
        Some(value) => value.bytes() == b"\x01".as_slice(),
        None => false,
    }
}

/// Whether a core is done, and has the value of PUT at its key.
fn is_put(alloc: Global, core: &Core) -> Result<bool, NotMade> {
    if !core.done() {
        return Ok(false);
    }
    Ok(has_put(&core.outcome(alloc)?.store))
}

/// A core of two calls of PUT, for two workers.
fn core_of_two(alloc: Global) -> Result<Core, NotMade> {
    let job = job_of(alloc, &[(PUT, K_1); 2])?;
    Ok(Core::new(alloc, job, 2)?)
}

/// Whether the workers make the rest of the steps, and reach the value of PUT.
fn ends_as_put(rt: &impl Abort, alloc: Global, core: &mut Core) -> Result<bool, NotMade> {
    follow(rt, alloc, core, &[0, 0, 1, 1, 1, 0, 0, 0, 0, 0, 0])?;
    is_put(alloc, core)
}

/// Whether room for a read is made, and a run is taken, once each worker has a call; and whether the workers then make the rest of
/// the steps.
fn is_recorded(
    rt: &impl Abort,
    alloc: Global,
    way: Way,
    recording: &mut Recording,
) -> Result<bool, NotMade> {
    follow(rt, alloc, &mut recording.core, &[0, 1, 1])?;
    let has_room = comes_right(alloc, recording, way);
    let is_taken = comes_right(alloc, recording, way);
    Ok(has_room && is_taken && ends_as_put(rt, alloc, &mut recording.core)?)
}

/// The same for a core of its own.
pub fn cores(rt: &impl Abort, alloc: Global, way: Way) -> Result<bool, NotMade> {
    let run = Some(ended_put(alloc)?);
    let core = core_of_two(alloc)?;
    let has_room = false;
    is_recorded(
        rt,
        alloc,
        way,
        &mut Recording {
            core,
            has_room,
            run,
        },
    )
}

/// A block that is driven by its list of worker numbers.
#[derive(Drop)]
struct Driving<'a> {
    job: Job,
    row: &'a Row,
    outcome: Option<Outcome>,
}

impl Attempt for Driving<'_> {
    fn attempt(&mut self, alloc: Global) -> Tried {
        match drive(alloc, &self.job, self.row.workers, self.row.schedule) {
            Ok(outcome) => {
                self.outcome = Some(outcome);
                Tried::Done
            }
            Err(fault) => refused(fault == DriveFault::Memory),
        }
    }
}

/// Whether a block is driven to the right outcome in the end.
fn is_outcome_right(alloc: Global, way: Way, driving: &mut Driving) -> Result<bool, NotMade> {
    let is_made = comes_right(alloc, driving, way);
    Ok(match &driving.outcome {
        Some(outcome) => is_made && has_text(alloc, outcome, driving.row.text)?,
        None => false,
    })
}

/// Whether a row has its right outcome in the end.
fn is_driven(alloc: Global, way: Way, row: &Row) -> Result<bool, NotMade> {
    let mut driving = Driving {
        job: job_of(alloc, row.calls)?,
        row,
        outcome: None,
    };
    is_outcome_right(alloc, way, &mut driving)
}

/// Whether blocks have their right outcomes in the end.
pub fn drives(alloc: Global, way: Way) -> Result<bool, NotMade> {
    Ok(is_driven(alloc, way, &LATE_WRITER)? && is_driven(alloc, way, &WITHDRAWN_WRITE)?)
}
