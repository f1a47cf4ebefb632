//! Why a file or a program is refused.

ghost use Rattle.std.specs.Prelude.{◌≡◌};
ghost use Rattle.elf32.specs.Refusals.{name_of, number_of};

use std::fmt;
use thiserror::Error;

/// The fault of a file or program with the least number, or that memory ran out. It prints as its name and number.
#[derive(Clone, Copy, Debug, PartialEq, Eq, Error)]
pub enum ElfError {
    /// The file has fewer than 52 bytes, or its table of 1 to 8 program headers, 32 bytes each from e_phoff on, passes
    /// its end.
    Truncated = 1,
    /// Bytes 0 to 3 are not 7f 45 4c 46.
    BadMagic = 2,
    /// Byte 4 is not 1 (32 bits), or byte 5 is not 1 (the lowest byte first).
    BadClassOrData = 3,
    /// Byte 6 or e_version is not 1.
    BadVersion = 4,
    /// e_type is not 2 (ET_EXEC), as in an object file, a shared one or a position-independent program.
    NotExec = 5,
    /// e_machine is not 243 (RISC-V).
    NotRiscv = 6,
    /// e_flags is not 0, as with compressed instructions or a hard-float ABI.
    BadFlags = 7,
    /// e_ehsize is not 52, or e_phentsize is not 32.
    BadHeaderSize = 8,
    /// e_phnum is not 1 to 8.
    BadCount = 9,
    /// A program header is neither PT_LOAD (1) nor PT_NULL (0).
    BadType = 10,
    /// A PT_LOAD has more bytes in the file than in memory, passes the end of the file, begins below 0x00010000, or
    /// ends above 0x00100000.
    SegmentRange = 11,
    /// A PT_LOAD begins at a lower address than one before it in the table.
    SegmentOrder = 12,
    /// Two PT_LOADs have addresses in one page of 4,096 bytes. One without bytes in memory has no address.
    PageShared = 13,
    /// A PT_LOAD may be both written and executed.
    WriteExecute = 14,
    /// e_entry is not a multiple of 4, or is no address of a PT_LOAD that may be executed. For `asm`: the source has no
    /// instruction.
    BadEntry = 15,
    /// Memory ran out for the bytes of a file, for the program of a file without a fault, or for the text of `dis`.
    Memory = 16,
}

impl ElfError {
    /// The number in the refusal's line, 1 to 16.
    pub fn number(self) -> u8
        ensures { result ≡ number_of self }
    {
        self as u8
    }

    /// The name in the refusal's line.
    pub fn name(self) -> &'static str
        ensures { result.now ≡ name_of self }
    {
        match self {
            ElfError::Truncated => "Truncated",
            ElfError::BadMagic => "BadMagic",
            ElfError::BadClassOrData => "BadClassOrData",
            ElfError::BadVersion => "BadVersion",
            ElfError::NotExec => "NotExec",
            ElfError::NotRiscv => "NotRiscv",
            ElfError::BadFlags => "BadFlags",
            ElfError::BadHeaderSize => "BadHeaderSize",
            ElfError::BadCount => "BadCount",
            ElfError::BadType => "BadType",
            ElfError::SegmentRange => "SegmentRange",
            ElfError::SegmentOrder => "SegmentOrder",
            ElfError::PageShared => "PageShared",
            ElfError::WriteExecute => "WriteExecute",
            ElfError::BadEntry => "BadEntry",
            ElfError::Memory => "Memory",
        }
    }
}

impl fmt::Display for ElfError {
    ghost use Rattle.std.specs.Prelude.{Some};
    ghost use Rattle.elf32.specs.Refusals.{error_text};

    ghost output = { λ fault. Some (error_text fault) };

    /// The name and the number.
    #[tactic(auto, unfolding(crate::specs::Refusals::error_text))]
    fn fmt<W: fmt::Write>(&self, f: &mut fmt::Formatter<W>) -> fmt::Result {
        write!(f, "{} {}", self.name(), self.number())
    }
}
