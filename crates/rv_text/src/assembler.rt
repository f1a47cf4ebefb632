//! The program that a source stands for.

ghost use Rattle.std.specs.Prelude.{◌≡◌, ◌≢◌, ◌==◌, map, IfOk};
ghost use Rattle.std.specs.List.{slice_split};
ghost use Rattle.rv_text.specs.Assembly.{GivesSections, empty_layout, layout_from, assembled_program, assembled};
ghost use Rattle.rv_text.specs.Answer.{ReadsLines};
ghost use Rattle.rv_text.specs.Layout.{source_layout_of};

use crate::fault::{AsmCause, AsmError};
use crate::layout::Layout;
use crate::words::words_of;
use rv_program::Program;
use std::alloc::{AllocError, Global};

/// The lines of a source, without their line feeds.
fn lines(alloc: Global, source: &[u8]) -> Result<Vec<&[u8]>, AllocError>
    ensures { IfOk result (λ v. map (λ line. line.now) v.items ≡ slice_split (λ b. b == 10) source.now) }
{
    source.split(|byte| *byte == b'\n').collect(alloc)
}

/// What the lines lay down, or the first fault of a line, of the causes 1, 2, 3, 5 and 7.
fn lay_out<'a>(alloc: Global, lines: &[&'a [u8]]) -> Result<Layout<'a>, AsmError>
    ensures { ReadsLines source_layout_of result (layout_from 1 (map (λ line. line.now) lines.now) empty_layout) }
{
    let mut layout = Layout::new(alloc);
    for (index, text) in lines.iter().enumerate() {
        let number = index + 1;
        if let Err(cause) = layout.read(number, *text) {
            return Err(AsmError {
                line: number,
                cause,
            });
        }
    }
    Ok(layout)
}

/// The program of what was laid down, or the first fault of a label, of the causes 4 and 6.
fn program(alloc: Global, layout: Layout<'_>) -> Result<Program, AsmError>
    ensures { ReadsLines (λ program. program) result (assembled_program (source_layout_of layout.entry)) }
{
    let text = words_of(alloc, &layout.labels, layout.items.as_slice())?;
    match Program::new(text, layout.data_bytes) {
        Some(program) => Ok(program),
        None => unreachable!(),
    }
}

/// The program that a source stands for, or its first fault, with its line. Of the causes 1, 2, 3, 5 and 7 the fault
/// is the one on the least line, and on that line the one with the least number. If no line has such a fault, the
/// fault is found among 4 and 6 in the same way. `Memory` may be returned for any source, and has line 1.
pub fn assemble(alloc: Global, source: &str) -> Result<Program, AsmError>
    ensures { GivesSections result (assembled source.now) }
{
    match program_or_fault(alloc, source) {
        Ok(program) => Ok(program),
        Err(fault) => Err(as_answered(fault)),
    }
}

/// A fault as it is returned: `Memory` has line 1.
fn as_answered(fault: AsmError) -> AsmError
    ensures memory { fault.cause ≡ AsmCause.Memory → result ≡ record { line = 1; cause = AsmCause.Memory } }
    ensures other { fault.cause ≢ AsmCause.Memory → result ≡ fault }
{
    match fault.cause {
        AsmCause::Memory => AsmError {
            line: 1,
            cause: AsmCause::Memory,
        },
        _ => fault,
    }
}

/// The program that a source stands for, or its first fault, as in `assemble`; `Memory` may have any line.
#[tactic(auto, unfolding(crate::specs::Assembly::assembled))]
fn program_or_fault(alloc: Global, source: &str) -> Result<Program, AsmError>
    ensures { ReadsLines (λ program. program) result (assembled source.now) }
{
    match lines(alloc, source.as_bytes()) {
        Ok(lines) => program(alloc, lay_out(alloc, lines.as_slice())?),
        Err(AllocError) => Err(AsmError {
            line: 1,
            cause: AsmCause::Memory,
        }),
    }
}
