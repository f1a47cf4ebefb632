//! What a block file says.

ghost use Rattle.std.specs.Prelude.{◌<◌, ◌≤◌, vec_len, All};
ghost use Rattle.rv_ledger.specs.Call.{IsInLimits};

use rv_ledger::{Rules, Store};

/// The greatest number of programs in a block file.
pub const PROGRAM_LIMIT: usize = 64;

/// What a `call` line says.
#[derive(Drop)]
pub struct CallLine {
    /// The number of its program, below the number of programs.
    pub program: usize,
    /// The gas limit, 1 to 10,000,000.
    pub gas: u32,
    /// The input, at most 4,096 bytes.
    pub input: Vec<u8>,
    ghost limits: { IsInLimits gas input.items },
}

/// What a block file says: at most 64 programs and 1,024 calls, each of one of the programs.
#[derive(Drop)]
pub struct BlockText {
    /// The rules of its calls, which bound the values of its storage too.
    pub rules: Rules,
    /// The paths of the programs, in the order of their numbers.
    pub programs: Vec<String>,
    /// The storage before the first call.
    pub store: Store,
    /// The calls, in block order.
    pub calls: Vec<CallLine>,
    ghost few_programs: { vec_len programs ≤ 64 },
    ghost few_calls: { vec_len calls ≤ 1024 },
    ghost known_programs: { All (λ call. call.program < vec_len programs) calls.items },
}
