//! A job whose storage the caller has.

ghost use Rattle.std.specs.Coded.{coded_list, coded_ℕ};
ghost use Rattle.std.specs.FinMap as map;
ghost use Rattle.rv_ledger.specs.Key.{Storage, key_cmp};

use rv_ledger::{Block, Call};
use std::marker::Model;
use stm_core::JobSource;

/// The storage that a caller has. The number is the caller's own; the storage is for contracts alone.
#[repr(C)]
#[derive(Drop)]
pub struct HostState {
    /// The caller's name of it.
    pub tag: u64,
    pub ghost storage: { Storage } by { map.code {R = key_cmp} (coded_list coded_ℕ) (coded_list coded_ℕ) },
}

impl Model for HostState {
    ghost use base.Fml.{ftrue};

    ghost also_owns = { λ _. ftrue };
}

// It owns a number alone.
unsafe impl Send for HostState {}

/// Calls over the storage that a caller has.
#[derive(Drop)]
pub struct HostJob {
    /// The calls.
    pub block: Block,
    /// What the calls read.
    pub state: HostState,
}

impl JobSource for HostJob {
    ghost job = { λ j. record { block = j.block; store = j.state.storage } };

    fn calls(&self) -> &[Call] {
        self.block.calls()
    }
}
