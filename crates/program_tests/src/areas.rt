//! The line of each refusal.

use crate::asserts::{assert_right, is_reported};
use block_file::{BlockFault, Cause};
use byte_streams::WriteFault;
use debugger::ReplayFault;
use elf32::ElfError;
use engines::{FileFault, Refusal, SeqFault};
use rv_text::{AsmCause, AsmError};
use std::alloc::Global;
use std::process::Abort;
use std::test::Fail;
use stm_core::{DriveFault, IncarnationLimit, RecordFault};
use workers::RunFault;

/// The causes at line 2 of a block file and of a schedule file, with the lines of both refusals.
const CAUSES: &[(Cause, &str, &str)] = &[
    (
        Cause::BadHeader,
        "rvstm: block 2 BadHeader 1\n",
        "rvstm: schedule 2 BadHeader 1\n",
    ),
    (
        Cause::BadLine,
        "rvstm: block 2 BadLine 2\n",
        "rvstm: schedule 2 BadLine 2\n",
    ),
    (
        Cause::BadNumber,
        "rvstm: block 2 BadNumber 3\n",
        "rvstm: schedule 2 BadNumber 3\n",
    ),
    (
        Cause::BadHex,
        "rvstm: block 2 BadHex 4\n",
        "rvstm: schedule 2 BadHex 4\n",
    ),
    (
        Cause::KeyOrder,
        "rvstm: block 2 KeyOrder 5\n",
        "rvstm: schedule 2 KeyOrder 5\n",
    ),
    (
        Cause::UnknownProgram,
        "rvstm: block 2 UnknownProgram 6\n",
        "rvstm: schedule 2 UnknownProgram 6\n",
    ),
    (
        Cause::Limit,
        "rvstm: block 2 Limit 7\n",
        "rvstm: schedule 2 Limit 7\n",
    ),
];

/// The causes at line 3 of a source, with the line of the refusal.
const ASM_CAUSES: &[(AsmCause, &str)] = &[
    (
        AsmCause::UnknownMnemonic,
        "rvstm: asm 3 UnknownMnemonic 1\n",
    ),
    (AsmCause::BadOperand, "rvstm: asm 3 BadOperand 2\n"),
    (AsmCause::ImmediateRange, "rvstm: asm 3 ImmediateRange 3\n"),
    (AsmCause::UnknownLabel, "rvstm: asm 3 UnknownLabel 4\n"),
    (AsmCause::DuplicateLabel, "rvstm: asm 3 DuplicateLabel 5\n"),
    (AsmCause::LabelRange, "rvstm: asm 3 LabelRange 6\n"),
    (AsmCause::TooLarge, "rvstm: asm 3 TooLarge 7\n"),
];

const NO_BLOCK_MEMORY: BlockFault = BlockFault {
    line: 2,
    cause: Cause::Memory,
};

const NO_ASM_MEMORY: AsmError = AsmError {
    line: 3,
    cause: AsmCause::Memory,
};

/// The greatest number of a line, in the longest lines that are printed of a block file and of a schedule file.
const LAST_BLOCK_LINE: BlockFault = BlockFault {
    line: usize::MAX,
    cause: Cause::UnknownProgram,
};

/// The same of a source.
const LAST_ASM_LINE: AsmError = AsmError {
    line: usize::MAX,
    cause: AsmCause::UnknownMnemonic,
};

/// The other refusals, with their lines.
const OTHERS: &[(Refusal, &str)] = &[
    (
        Refusal::File(FileFault::Unreadable),
        "rvstm: file Unreadable 1\n",
    ),
    (
        Refusal::File(FileFault::Unwritable),
        "rvstm: file Unwritable 2\n",
    ),
    (Refusal::File(FileFault::TooLong), "rvstm: file TooLong 3\n"),
    (
        Refusal::Block(LAST_BLOCK_LINE),
        "rvstm: block 18446744073709551615 UnknownProgram 6\n",
    ),
    (
        Refusal::Schedule(LAST_BLOCK_LINE),
        "rvstm: schedule 18446744073709551615 UnknownProgram 6\n",
    ),
    (
        Refusal::Asm(LAST_ASM_LINE),
        "rvstm: asm 18446744073709551615 UnknownMnemonic 1\n",
    ),
    (Refusal::Block(NO_BLOCK_MEMORY), "rvstm: block Memory 8\n"),
    (
        Refusal::Schedule(NO_BLOCK_MEMORY),
        "rvstm: schedule Memory 8\n",
    ),
    (Refusal::Asm(NO_ASM_MEMORY), "rvstm: asm Memory 8\n"),
    (
        Refusal::Elf(ElfError::Truncated),
        "rvstm: elf Truncated 1\n",
    ),
    (Refusal::Elf(ElfError::BadMagic), "rvstm: elf BadMagic 2\n"),
    (
        Refusal::Elf(ElfError::BadClassOrData),
        "rvstm: elf BadClassOrData 3\n",
    ),
    (
        Refusal::Elf(ElfError::BadVersion),
        "rvstm: elf BadVersion 4\n",
    ),
    (Refusal::Elf(ElfError::NotExec), "rvstm: elf NotExec 5\n"),
    (Refusal::Elf(ElfError::NotRiscv), "rvstm: elf NotRiscv 6\n"),
    (Refusal::Elf(ElfError::BadFlags), "rvstm: elf BadFlags 7\n"),
    (
        Refusal::Elf(ElfError::BadHeaderSize),
        "rvstm: elf BadHeaderSize 8\n",
    ),
    (Refusal::Elf(ElfError::BadCount), "rvstm: elf BadCount 9\n"),
    (Refusal::Elf(ElfError::BadType), "rvstm: elf BadType 10\n"),
    (
        Refusal::Elf(ElfError::SegmentRange),
        "rvstm: elf SegmentRange 11\n",
    ),
    (
        Refusal::Elf(ElfError::SegmentOrder),
        "rvstm: elf SegmentOrder 12\n",
    ),
    (
        Refusal::Elf(ElfError::PageShared),
        "rvstm: elf PageShared 13\n",
    ),
    (
        Refusal::Elf(ElfError::WriteExecute),
        "rvstm: elf WriteExecute 14\n",
    ),
    (Refusal::Elf(ElfError::BadEntry), "rvstm: elf BadEntry 15\n"),
    (Refusal::Elf(ElfError::Memory), "rvstm: elf Memory 16\n"),
    (Refusal::Seq(SeqFault::Memory), "rvstm: seq Memory 1\n"),
    (Refusal::Run(RunFault::BadCount), "rvstm: run BadCount 1\n"),
    (Refusal::Run(RunFault::Foreign), "rvstm: run Foreign 2\n"),
    (
        Refusal::Run(RunFault::ArenaFull),
        "rvstm: run ArenaFull 3\n",
    ),
    (
        Refusal::Run(RunFault::IncarnationLimit),
        "rvstm: run IncarnationLimit 4\n",
    ),
    (Refusal::Run(RunFault::Memory), "rvstm: run Memory 5\n"),
    (Refusal::Run(RunFault::Spawn), "rvstm: run Spawn 6\n"),
    (
        Refusal::Run(RunFault::StepLimit),
        "rvstm: run StepLimit 7\n",
    ),
    (
        Refusal::Debug(ReplayFault::NoSuchCall),
        "rvstm: debug NoSuchCall 1\n",
    ),
    (Refusal::Debug(ReplayFault::AtEnd), "rvstm: debug AtEnd 2\n"),
    (
        Refusal::Debug(ReplayFault::AtStart),
        "rvstm: debug AtStart 3\n",
    ),
    (
        Refusal::Debug(ReplayFault::BadRange),
        "rvstm: debug BadRange 4\n",
    ),
    (
        Refusal::Debug(ReplayFault::Memory),
        "rvstm: debug Memory 5\n",
    ),
    (
        Refusal::Drive(DriveFault::NotDone),
        "rvstm: drive NotDone 1\n",
    ),
    (
        Refusal::Drive(DriveFault::BadWorker),
        "rvstm: drive BadWorker 2\n",
    ),
    (
        Refusal::Drive(DriveFault::ArenaFull),
        "rvstm: drive ArenaFull 3\n",
    ),
    (
        Refusal::Drive(DriveFault::IncarnationLimit),
        "rvstm: drive IncarnationLimit 4\n",
    ),
    (
        Refusal::Drive(DriveFault::Memory),
        "rvstm: drive Memory 5\n",
    ),
    (Refusal::Output(WriteFault::Io), "rvstm: output Io 1\n"),
    (
        Refusal::Output(WriteFault::WroteNothing),
        "rvstm: output WroteNothing 2\n",
    ),
    (
        Refusal::Output(WriteFault::Memory),
        "rvstm: output Memory 3\n",
    ),
];

/// Whether a cause at line 2 of a block file and of a schedule file is reported so.
fn is_block_reported(alloc: Global, cause: Cause, block: &str, schedule: &str) -> bool {
    let fault = BlockFault { line: 2, cause };
    is_reported(alloc, &Refusal::Block(fault), block)
        && is_reported(alloc, &Refusal::Schedule(fault), schedule)
}

/// Whether a cause at line 3 of a source is reported so.
fn is_asm_reported(alloc: Global, cause: AsmCause, line: &str) -> bool {
    is_reported(alloc, &Refusal::Asm(AsmError { line: 3, cause }), line)
}

#[test]
fn each_refusal_has_its_line(rt: HostRuntime) {
    for (refusal, line) in OTHERS {
        assert_right(&rt, is_reported(rt.alloc(), refusal, line), line);
    }
    for (cause, block, schedule) in CAUSES {
        let is_right = is_block_reported(rt.alloc(), *cause, block, schedule);
        assert_right(&rt, is_right, block);
    }
    for (cause, line) in ASM_CAUSES {
        assert_right(&rt, is_asm_reported(rt.alloc(), *cause, line), line);
    }
}

/// What the faults of handing in a run print.
const RECORD_FAULTS: &str = "Foreign 1, ArenaFull 2, Memory 3, IncarnationLimit 4";

#[test]
fn record_faults_have_their_numbers(rt: HostRuntime) -> Result<(), Fail> {
    let (foreign, full) = (RecordFault::Foreign, RecordFault::ArenaFull);
    let (memory, limit) = (RecordFault::Memory, RecordFault::IncarnationLimit);
    let text = format!(in rt.alloc(); "{foreign}, {full}, {memory}, {limit}")?;
    assert!(rt; text.as_str() == RECORD_FAULTS);
    Ok(())
}

/// The refusal of a park has the name and number of the drive's.
#[test]
fn incarnation_limit_number(rt: HostRuntime) -> Result<(), Fail> {
    let limit = IncarnationLimit;
    let printed = format!(in rt.alloc(); "{limit}")?;
    assert!(rt; printed.as_str() == "IncarnationLimit 4");
    Ok(())
}
