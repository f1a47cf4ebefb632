//! Files and texts that are read and written while memory is refused.

use crate::refused::exhausted::attempts::{Attempt, Tried, Way, comes_right, done, refused};
use crate::refused::images::{NotMade, TOUCH, outcome_of_source};
use block_file::{BlockFault, Cause, parse};
use byte_streams::WriteFault;
use elf32::{ElfError, Image, load, write};
use receipts::write_outcome;
use rv_ledger::Outcome;
use rv_program::Program;
use rv_text::{AsmCause, AsmError, assemble};
use std::alloc::Global;

/// The data of TOUCH.
const TOUCH_DATA: &[u8] = b"\x07\0\0\0";

/// Whether this is the program of TOUCH: the first source line makes two of its nine words.
fn is_touch(program: &Program) -> bool {
    program.text().len() == 9 && program.data() == TOUCH_DATA
}

/// Whether this is the image of TOUCH.
fn is_touch_image(image: &Image) -> bool {
    match image.segments() {
        [text, data] => text.size == 36 && data.content.bytes() == TOUCH_DATA,
        _ => false,
    }
}

/// Assembling TOUCH.
#[derive(Drop)]
struct Assembling;

impl Attempt for Assembling {
    fn attempt(&mut self, alloc: Global) -> Tried {
        match assemble(alloc, TOUCH) {
            Ok(program) => done(is_touch(&program)),
            Err(AsmError { cause, .. }) => refused(cause == AsmCause::Memory),
        }
    }
}

/// Writing the file of TOUCH.
#[derive(Drop)]
struct Writing<'a> {
    program: &'a Program,
    file: &'a [u8],
}

impl Attempt for Writing<'_> {
    fn attempt(&mut self, alloc: Global) -> Tried {
        match write(alloc, self.program) {
            Ok(file) => done(file.as_slice() == self.file),
            Err(fault) => refused(fault == ElfError::Memory),
        }
    }
}

/// Loading the file of TOUCH.
#[derive(Drop)]
struct Loading<'a> {
    file: &'a [u8],
}

impl Attempt for Loading<'_> {
    fn attempt(&mut self, alloc: Global) -> Tried {
        match load(alloc, self.file) {
            Ok(image) => done(is_touch_image(&image)),
            Err(fault) => refused(fault == ElfError::Memory),
        }
    }
}

/// Whether TOUCH is assembled, written and loaded.
pub fn files(alloc: Global, way: Way) -> Result<bool, NotMade> {
    let program = assemble(alloc, TOUCH)?;
    let file = write(alloc, &program)?;
    let (program, file) = (&program, file.as_slice());
    Ok(
        comes_right(alloc, &mut Assembling, way)
            && comes_right(alloc, &mut Writing { program, file }, way)
            && comes_right(alloc, &mut Loading { file }, way),
    )
}

/// A block file of three keys, two programs and two calls.
const BLOCK: &[u8] = b"rvblock 1\nprogram 0 a\nprogram 1 b\n\
    store 0000000000000000000000000000000000000000000000000000000000000001 -\n\
    store 0000000000000000000000000000000000000000000000000000000000000002 0102\n\
    store 0000000000000000000000000000000000000000000000000000000000000003 \
    0000000000000000000000000000000000000000000000000000000000000000\n\
    call 0 100 0102\ncall 1 100 -\n";

/// Reading that file.
#[derive(Drop)]
struct Parsing;

impl Attempt for Parsing {
    fn attempt(&mut self, alloc: Global) -> Tried {
        match parse(alloc, BLOCK) {
            Ok(block) => done(
                block.programs.len() == 2
                    && block.calls.len() == 2
                    && block.store.iter().count() == 3,
            ),
            Err(BlockFault { cause, .. }) => refused(cause == Cause::Memory),
        }
    }
}

/// The result of a block of one call of TOUCH. Its word lies at 0x00020000.
const TOUCH_TEXT: &[u8] = b"\
    call 0 returned gas 24 pc 00010020 out 08000000\n\
    regs 00000000 00000000 00110000 00000000 00000000 00020000 00000008 00000000 \
    00000000 00000000 00020000 00000004 00000000 00000000 00000000 00000000 \
    00000000 00000003 00000000 00000000 00000000 00000000 00000000 00000000 \
    00000000 00000000 00000000 00000000 00000000 00000000 00000000 00000000\n\
    end\n";

/// Writing the result of TOUCH, into room that is there.
#[derive(Drop)]
struct Printing<'a> {
    outcome: &'a Outcome,
    text: Vec<u8>,
}

impl Attempt for Printing<'_> {
    fn attempt(&mut self, alloc: Global) -> Tried {
        let answer = write_outcome(alloc, self.outcome, &mut self.text);
        let is_beginning = TOUCH_TEXT.starts_with(self.text.as_slice());
        match answer {
            Ok(()) => done(self.text.as_slice() == TOUCH_TEXT),
            Err(fault) => {
                self.text.clear();
                refused(fault == WriteFault::Memory && is_beginning)
            }
        }
    }
}

/// Whether a block file is read, and a result written.
pub fn texts(alloc: Global, way: Way) -> Result<bool, NotMade> {
    let text = Vec::with_capacity(alloc, 1024)?;
    let outcome = &outcome_of_source(alloc, TOUCH)?;
    let is_written = comes_right(alloc, &mut Printing { outcome, text }, way);
    Ok(is_written && comes_right(alloc, &mut Parsing, way))
}
