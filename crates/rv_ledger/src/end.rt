//! How a call ends.

/// Why a call is trapped.
#[derive(Clone, Copy, Debug, PartialEq, Eq)]
pub enum Trap {
    /// The word at the pc is not an instruction of RV32IM.
    Illegal,
    /// The target of a jump or a branch is not a multiple of 4, or the address of a load or a store is not a multiple of
    /// its size.
    Misaligned,
    /// A load, a store or a storage call needs a right that one of its bytes does not have. Bytes outside memory have none.
    MemoryFault,
    /// A byte of the instruction may not be fetched: it is outside memory, or in a page that can't be executed.
    FetchFault,
    /// The instruction is EBREAK.
    Breakpoint,
    /// The number in a7 is not that of a storage call: it is above 4, or above 5 under rules three.
    UnknownCall,
    /// A length or capacity of a storage call is above its limit.
    BadLength,
    /// A write, a removal or an addition to a key comes after the call has changed 256 other keys.
    TooManyWrites,
}

/// How a call ends. Only a call that returned keeps its writes.
#[derive(Clone, Copy, Debug, PartialEq, Eq)]
pub enum End {
    /// The call returned.
    Returned,
    /// The call reverted.
    Reverted,
    /// Less gas was left than the next instruction, or the copy of a READ, costs.
    OutOfGas,
    /// The call was trapped.
    Trapped(Trap),
}
