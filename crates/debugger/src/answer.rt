//! What a command prints, and what it does to the replay.

ghost use Rattle.std.specs.Prelude.{◌≡◌, ◌++◌, ◌∷◌, [], IfOk, OnErr, OnOk};
ghost use Rattle.std.specs.String.{string_bytes};
ghost use Rattle.debugger.specs.declared.fault.ReplayFault.TheVariants.{AtEnd, AtStart};
ghost use Rattle.debugger.specs.More.{at_moment, content_line, help_text};
ghost use Rattle.debugger.specs.Replay.{bytes_seen, has_pc, next_of, previous_of};
ghost use Rattle.debugger.specs.Session.{IsOnWay, after_command, after_line, answer_text, change_of, changed_text, line_text, moved, moved_text, replay_refusal_line, seen_text, stop_of, where_line};

use crate::command::Command;
use crate::fault::ReplayFault;
use crate::replay::Replay;
use receipts::{bytes_text, regs_line};
use rv_ledger::Value;
use std::alloc::{AllocError, Global};

/// Does what a line asks for, and returns what it prints: `what` if the line is not a command. Refused if memory ran out.
pub(crate) fn line_text(
    alloc: Global,
    replay: &mut Replay,
    command: Option<Command>,
) -> Result<String, AllocError>
    ensures text { IfOk result (λ t. string_bytes t ≡ line_text replay.old command) }
    ensures replay { OnOk result (replay.new ≡ after_line replay.old command) }
    ensures err { OnErr result (IsOnWay replay.old command replay.new) }
{
    match command {
        Some(command) => answer_text(alloc, replay, command),
        None => String::from_str(alloc, "what\n"),
    }
}

/// Does a command, and returns what it prints. Refused if memory ran out.
fn answer_text(alloc: Global, replay: &mut Replay, command: Command) -> Result<String, AllocError>
    ensures text { IfOk result (λ t. string_bytes t ≡ answer_text replay.old command) }
    ensures replay { OnOk result (replay.new ≡ after_command replay.old command) }
    ensures err { OnErr result (IsOnWay replay.old (Some command) replay.new) }
{
    match command {
        Command::Step => step_text(alloc, replay),
        Command::Back => back_text(alloc, replay),
        Command::RunTo(pc) => run_to_text(alloc, replay, pc),
        Command::Where => where_line(alloc, replay),
        Command::Registers => regs_line(alloc, replay.regs()),
        Command::Bytes(address, count) => seen_text(alloc, replay, address, count),
        Command::Quit => Ok(String::new(alloc)),
        Command::GoTo(moment) => go_to_text(alloc, replay, moment),
        Command::RunToChange(address, count) => changed_text(alloc, replay, address, count),
        Command::End => replay.end_line(),
        Command::Value(key) => content_line(alloc, replay.content(&key)),
        Command::Help => help_text(alloc),
    }
}

/// Goes to the next moment. Returns the line of the new moment, or of the refusal.
fn step_text(alloc: Global, replay: &mut Replay) -> Result<String, AllocError>
    ensures text { IfOk result (λ t. string_bytes t ≡ moved_text AtEnd (next_of replay.old)) }
    ensures replay { OnOk result (replay.new ≡ moved replay.old (next_of replay.old)) }
    ensures err { OnErr result (IsOnWay replay.old (Some Command.Step) replay.new) }
{
    match replay.step() {
        Ok(()) => where_line(alloc, replay),
        Err(ReplayFault::Memory) => Err(AllocError),
        Err(fault) => refusal_line(alloc, fault),
    }
}

/// Goes to the moment before. Returns the line of the new moment, or of the refusal.
fn back_text(alloc: Global, replay: &mut Replay) -> Result<String, AllocError>
    ensures text { IfOk result (λ t. string_bytes t ≡ moved_text AtStart (previous_of replay.old)) }
    ensures replay { OnOk result (replay.new ≡ moved replay.old (previous_of replay.old)) }
    ensures err { OnErr result (IsOnWay replay.old (Some Command.Back) replay.new) }
{
    match replay.back() {
        Ok(()) => where_line(alloc, replay),
        Err(ReplayFault::Memory) => Err(AllocError),
        Err(fault) => refusal_line(alloc, fault),
    }
}

/// Runs to a pc. Returns the line of the new moment, or of the refusal.
fn run_to_text(alloc: Global, replay: &mut Replay, pc: u32) -> Result<String, AllocError>
    ensures text { IfOk result (λ t. string_bytes t ≡ moved_text AtEnd (stop_of (has_pc pc) replay.old)) }
    ensures replay { OnOk result (replay.new ≡ moved replay.old (stop_of (has_pc pc) replay.old)) }
    ensures err { OnErr result (IsOnWay replay.old (Some (Command.RunTo pc)) replay.new) }
{
    match replay.run_to(pc) {
        Ok(()) => where_line(alloc, replay),
        Err(ReplayFault::Memory) => Err(AllocError),
        Err(fault) => refusal_line(alloc, fault),
    }
}

/// Goes to a moment. Returns the line of the new moment, or of the refusal.
fn go_to_text(alloc: Global, replay: &mut Replay, moment: u32) -> Result<String, AllocError>
    ensures text { IfOk result (λ t. string_bytes t ≡ moved_text AtEnd (at_moment moment replay.old)) }
    ensures replay { OnOk result (replay.new ≡ moved replay.old (at_moment moment replay.old)) }
    ensures err { OnErr result (IsOnWay replay.old (Some (Command.GoTo moment)) replay.new) }
{
    match replay.go_to(u64::from(moment)) {
        Ok(()) => where_line(alloc, replay),
        Err(ReplayFault::Memory) => Err(AllocError),
        Err(fault) => refusal_line(alloc, fault),
    }
}

/// Runs to a change of `count` bytes from an address on. Returns the line of the new moment, or of the refusal.
fn changed_text(
    alloc: Global,
    replay: &mut Replay,
    address: u32,
    count: u32,
) -> Result<String, AllocError>
    ensures text { IfOk result (λ t. string_bytes t ≡ changed_text address count replay.old) }
    ensures replay { OnOk result (replay.new ≡ moved replay.old (change_of address count replay.old)) }
    ensures err { OnErr result (IsOnWay replay.old (Some (Command.RunToChange address count)) replay.new) }
{
    match replay.run_to_change(address, count) {
        Ok(()) => where_line(alloc, replay),
        Err(ReplayFault::Memory) => Err(AllocError),
        Err(fault) => refusal_line(alloc, fault),
    }
}

/// The line of a value, or `absent` if there is none. Refused if memory ran out.
fn content_line(alloc: Global, content: Option<Value>) -> Result<String, AllocError>
    ensures { IfOk result (λ t. string_bytes t ≡ content_line content) }
{
    match content {
        Some(value) => {
            let text = bytes_text(alloc, value.bytes())?;
            format!(in alloc; "value {text}\n")
        }
        None => String::from_str(alloc, "absent\n"),
    }
}

/// The help: each line, and what it does. Refused if memory ran out.
fn help_text(alloc: Global) -> Result<String, AllocError>
    ensures { IfOk result (λ t. string_bytes t ≡ help_text) }
{
    String::from_str(
        alloc,
        "s: on to the next moment\nb: back to the moment before\ng ADDRESS: on to this pc, or to the last moment\nw: the moment, its pc and the word there\nr: the registers\nm ADDRESS LENGTH: bytes of memory\nq: ends the session\nt MOMENT: to a moment, forward or back\nc ADDRESS LENGTH: on to the next change of these bytes, or to the last moment\ne: how the call ends: end, output, gas, last moment\nv KEY: what a READ of this key would find now\nh: these lines\n",
    )
}

/// The line of the moment, its pc and the word there. Refused if memory ran out.
fn where_line(alloc: Global, replay: &Replay) -> Result<String, AllocError>
    ensures { IfOk result (λ t. string_bytes t ≡ where_line replay.now) }
{
    let mut text = String::new(alloc);
    match replay.where_text(&mut text) {
        Ok(()) => {}
        Err(ReplayFault::Memory) => return Err(AllocError),
        Err(_) => unreachable!(),
    }
    text.push_str("\n")?;
    Ok(text)
}

/// The line of `count` bytes of memory from an address on, or of the refusal.
fn seen_text(alloc: Global, replay: &Replay, address: u32, count: u32) -> Result<String, AllocError>
    ensures { IfOk result (λ t. string_bytes t ≡ seen_text (bytes_seen replay.now address count)) }
{
    match replay.bytes(alloc, address, count) {
        Ok(bytes) => {
            let mut text = bytes_text(alloc, bytes.as_slice())?;
            text.push_str("\n")?;
            Ok(text)
        }
        Err(ReplayFault::Memory) => Err(AllocError),
        Err(fault) => refusal_line(alloc, fault),
    }
}

/// The line of a refusal.
fn refusal_line(alloc: Global, fault: ReplayFault) -> Result<String, AllocError>
    ensures { IfOk result (λ t. string_bytes t ≡ replay_refusal_line fault) }
{
    format!(in alloc; "refused {fault}\n")
}
