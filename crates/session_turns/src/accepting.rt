//! Whether a frame may run.

ghost use Rattle.std.specs.Prelude.{◌≡◌, ◌≤◌, length, IfErr, IfOk, Ok};
ghost use Rattle.std.specs.List.{sum_by};
ghost use Rattle.block_file.specs.Block.{block_value, parsed_block};
ghost use Rattle.session_turns.specs.Failures.{MayFailFrame};
ghost use Rattle.session_turns.specs.Stages.{StageGives, FailsOnlyWhere, IsAccepted, StopsAt};
ghost use Rattle.session_turns.specs.Turn.{accepted, accepted_block, is_above_limit};

use crate::frame_programs::frame_programs;
use crate::refusal::{Failure, FrameRefusal};
use crate::settings::Settings;
use crate::stages::{AcceptedFrame, Stop};
use crate::state::State;
use block_file::{BlockFault, BlockText, CallLine, Cause, parse};
use std::alloc::Global;

/// A frame over the programs that it names, or its first fault. The order is: its length, its text, the gas of its calls, its
/// rules, its programs. Fails if memory for its text or its programs runs out before a fault is found.
#[tactic(auto, using(crate::proofs::Frames::says_block, crate::proofs::Frames::fails_block, crate::proofs::Frames::says_stopped, crate::proofs::Frames::fails_stopped))]
pub(crate) fn accepted(
    alloc: Global,
    settings: Settings,
    state: &State,
    bytes: &[u8],
) -> Result<AcceptedFrame, Stop>
    ensures says { StageGives IsAccepted (accepted settings state.now bytes.now) result }
    ensures fails { FailsOnlyWhere (MayFailFrame settings state.now bytes.now) result }
{
    if bytes.len() as u64 > settings.frame_limit {
        return Err(Stop::Refused(FrameRefusal::TooLong));
    }
    match parsed(alloc, bytes) {
        Ok(block) => accepted_block(alloc, settings, state, block),
        Err(stop) => Err(stop),
    }
}

/// The text of a block file, or its first fault. Fails if memory runs out before a fault is found.
pub(crate) fn parsed(alloc: Global, bytes: &[u8]) -> Result<BlockText, Stop>
    ensures ok { IfOk result (λ block. parsed_block bytes.now ≡ Ok (block_value block)) }
    ensures err { IfErr result (StopsAt (parsed_block bytes.now)) }
{
    match parse(alloc, bytes) {
        Ok(block) => Ok(block),
        Err(
            BlockFault {
                line: _,
                cause: Cause::Memory,
            },
        ) => Err(Stop::Failed(Failure::Block)),
        Err(fault) => Err(Stop::Refused(FrameRefusal::Block(fault))),
    }
}

/// The same after the text.
fn accepted_block(
    alloc: Global,
    settings: Settings,
    state: &State,
    block: BlockText,
) -> Result<AcceptedFrame, Stop>
    ensures says { StageGives IsAccepted (accepted_block settings state.now (block_value block)) result }
    ensures fails { FailsOnlyWhere (λ failure. (failure ≡ Failure.Program) × IfErr (accepted_block settings state.now (block_value block)) (λ refusal. refusal ≡ FrameRefusal.NoProgram)) result }
{
    if is_above(settings.frame_gas, gas_of(block.calls.as_slice())) {
        return Err(Stop::Refused(FrameRefusal::TooMuchGas));
    }
    if block.rules.number() < state.rules.number() {
        return Err(Stop::Refused(FrameRefusal::OlderRules));
    }
    match frame_programs(alloc, &state.programs, block.programs.as_slice()) {
        Ok(images) => Ok(AcceptedFrame { block, images }),
        Err(stop) => Err(stop),
    }
}

/// The sum of the gas limits of a frame's calls: at most 10,240,000,000.
fn gas_of(calls: &[CallLine]) -> u64
    requires { length calls.now ≤ 1024 }
    ensures { result ≡ sum_by (λ call. call.gas) calls.now }
{
    let mut gas = 0;
    for call in calls {
        gas += u64::from(call.gas);
    }
    gas
}

/// Whether gas is above a bound, if there is one.
fn is_above(most: Option<u64>, gas: u64) -> bool
    ensures { result ≡ is_above_limit most gas }
{
    match most {
        Some(most) => gas > most,
        None => false,
    }
}
