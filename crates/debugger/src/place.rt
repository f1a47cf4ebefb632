//! The text of a place in a call.

ghost use Rattle.std.specs.Prelude.{◌≡◌, IfOk};
ghost use Rattle.std.specs.String.{string_bytes};
ghost use Rattle.rv_mem.specs.Space.{loaded};
ghost use Rattle.rv_mem.specs.declared.access.Access.TheVariants.{Execute};
ghost use Rattle.debugger.specs.Replay.{fetched_text, moment_text};

use receipts::word_text;
use rv_mem::Memory;
use rv_step::Machine;
use rv_text::disassemble;
use std::alloc::{AllocError, Global};

/// A moment in decimal, the pc in eight hex digits, and the text of the word there. Refused if memory ran out.
pub(crate) fn place_text(
    alloc: Global,
    moment: u64,
    machine: &Machine,
) -> Result<String, AllocError>
    ensures { IfOk result (λ t. string_bytes t ≡ moment_text moment machine.now) }
{
    let pc = word_text(alloc, machine.pc)?;
    let word = fetched_text(alloc, &machine.memory, machine.pc)?;
    format!(in alloc; "{moment} {pc} {word}")
}

/// The text of the word at an address, or `fetch-fault` if it may not be fetched. Refused if memory ran out.
fn fetched_text(alloc: Global, memory: &Memory, address: u32) -> Result<String, AllocError>
    ensures { IfOk result (λ t. string_bytes t ≡ fetched_text (loaded 4 Execute memory.now address)) }
{
    let Ok(word) = memory.fetch(address) else {
        return String::from_str(alloc, "fetch-fault");
    };
    let mut text = String::new(alloc);
    disassemble(alloc, word, &mut text)?;
    Ok(text)
}
