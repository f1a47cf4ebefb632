//! The calls of a block over its programs.

ghost use Rattle.std.specs.Prelude.{◌≡◌, ◌<◌, length, map, All, IfOk};
ghost use Rattle.std.specs.Arc.{arc_value};
ghost use Rattle.block_file.specs.Block.{call_value};
ghost use Rattle.programs.specs.Programs.{call_over};

use block_file::CallLine;
use elf32::Image;
use rv_ledger::{Call, Rules};
use std::alloc::{AllocError, Global};
use std::sync::Arc;

/// The calls of lines over the programs that have their numbers; refused if memory ran out.
pub fn calls_over(
    alloc: Global,
    rules: Rules,
    images: &[Arc<Image>],
    lines: Vec<CallLine>,
) -> Result<Vec<Call>, AllocError>
    requires { All (λ line. line.program < length images.now) lines.items }
    ensures { IfOk result (λ calls. calls.items ≡ map (call_over rules (map arc_value images.now)) (map call_value lines.items)) }
{
    let mut calls = Vec::with_capacity(alloc, lines.len())?;
    for line in lines {
        calls.push(call_over(rules, images, line)?)?;
    }
    Ok(calls)
}

/// The call of a line over the loaded programs; refused if memory ran out.
fn call_over(rules: Rules, images: &[Arc<Image>], line: CallLine) -> Result<Call, AllocError>
    requires { line.program < length images.now }
    ensures { IfOk result (λ c. c ≡ call_over rules (map arc_value images.now) (call_value line)) }
{
    let CallLine {
        program,
        gas,
        input,
    } = line;
    let image = Arc::try_clone(&images[program])?;
    let Ok(call) = Call::under(rules, image, gas, input) else {
        unreachable!()
    };
    Ok(call)
}
