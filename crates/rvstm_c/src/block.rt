//! A block that a handle has.

ghost use Rattle.std.specs.Prelude.{◌≡◌, false, IfOk, IsSome};
ghost use Rattle.std.specs.Arc.{arc_value};
ghost use Rattle.rv_ledger.specs.Lent.{lent_content};
ghost use Rattle.rvstm_c.specs.Blocks.{IsBasedIf, IsLimit, Runs, rules_numbered};
ghost use Rattle.elf32.specs.Layout.{Layout};
ghost use Rattle.rv_ledger.specs.Call.{call_of};
ghost use Rattle.rv_ledger.specs.declared.rules.Rules.{Rules as RulesValue};

use crate::status::{
    BAD_GAS, DONE, FAILED, LONG_INPUT, LONG_VALUE, NOT_ASKED, TOO_MANY_CALLS, WRONG_STAGE,
};
use elf32::Image;
use host_block::{BaseFault, BlockResult, OrderedRun};
use rv_ledger::{
    CALL_LIMIT, Call, CallFault, GAS_LIMIT, INPUT_LIMIT, Key, LentValue, Rules, VALUE_LIMIT,
};
use std::alloc::{AllocError, AllocFailed, Global};
use std::mem::replace;
use std::sync::Arc;

/// The stage of a block.
#[derive(Drop)]
pub enum Stage {
    /// Calls are added.
    Calls(Vec<Call>),
    /// They run, or have run.
    Run(OrderedRun),
}

/// A block that a handle has.
#[derive(Drop)]
pub struct EmbeddedBlock {
    /// The rules of its calls.
    pub rules: Rules,
    /// Its stage.
    pub stage: Stage,
}

impl EmbeddedBlock {
    ghost use Rattle.std.specs.Prelude.{◌≡◌};
    ghost use Rattle.std.specs.Arc.{arc_value};
    ghost use Rattle.rvstm_c.specs.Blocks.{AddsCall, HasResult, IsBased, HasBegunRun, IsGone, block_view};

    /// Adds a call after the others. Returns the status.
    pub(crate) fn add_call(
        &mut self,
        alloc: Global,
        program: &Arc<Image>,
        gas: u32,
        input: &[u8],
    ) -> u32
        ensures { AddsCall (arc_value program.now) gas input.now (block_view self.old) result (block_view self.new) }
    {
        let rules = self.rules;
        let Stage::Calls(calls) = &mut self.stage else {
            return WRONG_STAGE;
        };
        if calls.len() >= CALL_LIMIT {
            return TOO_MANY_CALLS;
        }
        if let Some(status) = limit_status(gas, input) {
            return status;
        }
        match new_call(alloc, rules, program, gas, input) {
            Ok(Ok(call)) => match calls.push(call) {
                Ok(()) => DONE,
                Err(AllocFailed { .. }) => FAILED,
            },
            Ok(Err(CallFault::BadGas)) => BAD_GAS,
            Ok(Err(CallFault::InputTooLong)) => LONG_INPUT,
            Err(AllocError) => FAILED,
        }
    }

    /// Begins the run, or continues it. Returns the key that is asked for, or None once all calls have ended.
    pub(crate) fn go(&mut self, alloc: Global) -> Result<Option<Key>, AllocError>
        ensures { IsGone (block_view self.old) result (block_view self.new) }
    {
        self.begin(alloc);
        match &mut self.stage {
            Stage::Run(run) => run.go(),
            Stage::Calls(_) => unreachable!(),
        }
    }

    /// Begins the run, if it has not begun.
    fn begin(&mut self, alloc: Global)
        ensures { HasBegunRun (block_view self.old) (block_view self.new) }
    {
        if let Stage::Calls(calls) = &mut self.stage {
            let calls = replace(calls, Vec::new(alloc));
            self.stage = Stage::Run(OrderedRun::new(alloc, calls));
        }
    }

    /// Answers the key that is asked for. Returns the status.
    pub(crate) fn answer(&mut self, present: bool, value: &[u8]) -> u32
        ensures { IsBased present value.now (block_view self.old) result (block_view self.new) }
    {
        let Stage::Run(run) = &mut self.stage else {
            return NOT_ASKED;
        };
        if run.asked().is_none() {
            return NOT_ASKED;
        }
        if !present {
            return keep_base(run, None);
        }
        if value.len() > VALUE_LIMIT {
            return LONG_VALUE;
        }
        keep_base(run, Some(LentValue::of(value)))
    }

    /// What the block did, once its calls have ended.
    pub(crate) fn result(&self) -> Option<BlockResult<'_>>
        ensures { HasResult result (block_view self.now) }
    {
        match &self.stage {
            Stage::Run(run) => run.result(),
            Stage::Calls(_) => None,
        }
    }
}

/// Answers the key that a run asks for. Returns the status.
fn keep_base(run: &mut OrderedRun, content: Option<LentValue>) -> u32
    requires { IsSome run.old.asked }
    ensures { IsBasedIf false (lent_content content.entry) run.old result (Runs run.new) }
{
    match run.answer(content) {
        Ok(()) => DONE,
        Err(BaseFault::NotAsked) => NOT_ASKED,
        Err(BaseFault::Memory) => FAILED,
    }
}

/// The rules of a number, or None if it is not 1, 2 or 3.
pub(crate) fn rules_of(number: u32) -> Option<Rules>
    ensures { result ≡ rules_numbered number }
{
    if number == 1 {
        return Some(Rules::One);
    }
    if number == 2 {
        return Some(Rules::Two);
    }
    if number == 3 {
        return Some(Rules::Three);
    }
    None
}

/// The status of a gas limit or an input that no call has; None if a call may have them.
fn limit_status(gas: u32, input: &[u8]) -> Option<u32>
    ensures { (rules : RulesValue) (program : Layout) → IsLimit (call_of rules program gas input.now) result }
{
    if gas == 0 || gas > GAS_LIMIT {
        return Some(BAD_GAS);
    }
    if input.len() > INPUT_LIMIT {
        return Some(LONG_INPUT);
    }
    None
}

/// A call of a program with a copy of its input; refused if memory ran out.
fn new_call(
    alloc: Global,
    rules: Rules,
    program: &Arc<Image>,
    gas: u32,
    input: &[u8],
) -> Result<Result<Call, CallFault>, AllocError>
    ensures { IfOk result (λ call. call ≡ call_of rules (arc_value program.now) gas input.now) }
{
    let input = Vec::from_slice(alloc, input)?;
    Ok(Call::under(rules, Arc::try_clone(program)?, gas, input))
}
