//! The program `rvstm`: executes blocks of RV32IM contract calls.
#![tactic(auto)]

use engines::{SystemStores, exit_code};
use std::process::ExitCode;

fn main(rt: HostRuntime) -> ExitCode {
    let mut stores = SystemStores { rt };
    exit_code(&rt, &mut stores, rt.stdin(), rt.stdout(), rt.stderr())
}
