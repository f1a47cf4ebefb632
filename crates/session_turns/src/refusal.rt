//! Why a request is not done.

use block_file::BlockFault;
use elf32::ElfError;

/// Why a request is refused. It follows from the requests so far and the settings alone, so each node that got the same
/// requests answers the same.
#[derive(Clone, Copy, Debug, PartialEq, Eq)]
pub enum FrameRefusal {
    /// The bytes of a `frame`, `try` or `begin` have a fault of a block file. The first one is reported.
    Block(BlockFault),
    /// The bytes of a `program` have a fault of a program file. The one with the least number is reported.
    Elf(ElfError),
    /// The LENGTH of a `program` is above 131,072.
    FileTooLong,
    /// The block of a `frame` or `try` has lower rules than the session.
    OlderRules,
    /// A PATH of a `frame` or `try`, or the NAME of a `forget`, is not the name of a program that is here.
    NoProgram,
    /// The LENGTH of a `frame` or `try` is above `--frame-limit`.
    TooLong,
    /// The gas limits of the calls of a `frame` or `try` have a sum above `--frame-gas`.
    TooMuchGas,
    /// The block file of a `begin` has a `program` or `call` line.
    NotADump,
    /// `last` is asked before any frame counts, or after a `begin` and before the next frame that counts.
    NoFrame,
    /// The DIGEST of a `begin` is `-` and the session keeps a digest, or it has digits and the session keeps none.
    OtherDigest,
    /// A `frame` or `try` comes at height 9,999,999,999, the greatest.
    TooHigh,
}

/// What this machine ran out of memory for. The request changed nothing, and may be sent again.
#[derive(Clone, Copy, Debug, PartialEq, Eq)]
pub enum Failure {
    /// Memory ran out for the bytes of a `frame`, `try` or `begin`, or for the text that they are.
    Block,
    /// Memory ran out for a `program`, or for the list of the programs of a `frame` or `try`.
    Program,
    /// Memory ran out for the run of a `frame` or `try`, or for what it leaves.
    Run,
    /// Memory ran out for the answer to a request other than `forget`, `last` and `begin`.
    Answer,
}
