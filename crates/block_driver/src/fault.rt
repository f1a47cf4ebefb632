//! Why a step is refused.

/// Why a step is refused.
#[derive(Clone, Copy, Debug, PartialEq, Eq)]
pub enum StepFault {
    /// The worker, its run or its answers are not those of the block.
    Foreign = 1,
    /// The runs of calls, repeated ones included, would have more than 1,048,576 writes.
    ArenaFull = 2,
    /// A run at incarnation 65,535, the 65,536th of its call, would be parked or recorded.
    IncarnationLimit = 3,
    /// Memory ran out. The worker and the block stay as they were, and may go on.
    Memory = 4,
    /// The worker has made 2^64 - 1 steps.
    StepLimit = 5,
    /// The caller gave the block up.
    GivenUp = 6,
}
