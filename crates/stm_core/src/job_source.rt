//! What holds the job of a run.

ghost use Rattle.std.specs.FinMap as map;
ghost use Rattle.std.specs.Option.{option_copied};
ghost use Rattle.std.specs.Prelude.{◌≡◌, ◌≤◌, length};
ghost use Rattle.rv_ledger.specs.declared.job.Job.{Job};

use rv_ledger::{Call, Contents, Job, Key, LentBlock, StoredValue};

/// What holds the calls of a job. Its storage may be elsewhere.
pub trait JobSource: Drop {
    ghost job: { Self → Job };

    /// The calls, at most 1,024.
    fn calls(&self) -> &[Call]
        ensures value { result.now ≡ (job self.now).block }
        ensures count { length (job self.now).block ≤ 1024 };
}

/// What holds a job with its storage, or with what stands for one.
pub trait StoredJob: JobSource {
    /// What the storage before the first call has at a key, or None if the key is absent.
    fn content(&self, key: &Key) -> Option<&StoredValue>
        ensures { option_copied result ≡ map.get (Self.job self.now).store key.now };
}

impl JobSource for Job {
    ghost job = { λ j. j };

    fn calls(&self) -> &[Call] {
        self.block.calls()
    }
}

impl StoredJob for Job {
    fn content(&self, key: &Key) -> Option<&StoredValue> {
        self.store.get(key)
    }
}

/// A block and contents that are lent. They stand for the job of that block over the storage that the contents
/// stand for.
#[derive(Drop)]
pub struct LentJob<'a, S: Contents> {
    /// The calls.
    pub block: LentBlock<'a>,
    /// What the calls read.
    pub contents: &'a S,
}

impl<S: Contents> JobSource for LentJob<'_, S> {
    ghost job = { λ l. record { block = l.block.calls.now; store = S.storage l.contents.now } };

    fn calls(&self) -> &[Call] {
        self.block.calls()
    }
}

impl<S: Contents> StoredJob for LentJob<'_, S> {
    fn content(&self, key: &Key) -> Option<&StoredValue> {
        self.contents.get(key)
    }
}
