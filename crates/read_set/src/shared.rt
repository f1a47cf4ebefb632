//! Versions that the origins of several reads share.

ghost use Rattle.std.specs.Prelude.{◌≡◌, ◌↔◌, IfOk, true};

use crate::origin::Version;
use std::alloc::{AllocError, Global};
use std::marker::Model;
use std::sync::Arc;

/// Versions that a read passed, in a list that several origins may have.
#[derive(Debug, Drop)]
pub struct SharedVersions {
    list: Arc<Vec<Version>>,
}

impl Model for SharedVersions {
    ghost use Rattle.std.specs.Prelude.{List};
    ghost use Rattle.std.specs.Arc.{arc_value};
    ghost use Rattle.read_set.specs.declared.origin.Version.{Version};

    ghost Value = { List Version };

    ghost view = { λ s. (arc_value s.list).items };
}

impl SharedVersions {
    /// A list of exactly these versions; refused if memory ran out.
    pub fn of(alloc: Global, versions: &[Version]) -> Result<SharedVersions, AllocError>
        ensures { IfOk result (λ s. s ≡ versions.now) }
    {
        let list = Vec::from_slice(alloc, versions)?;
        Ok(SharedVersions {
            list: Arc::new(alloc, list)?,
        })
    }

    /// The same list for one more owner. Takes no memory; refused as AllocError if the count of owners can't grow.
    pub fn copy(&self) -> Result<SharedVersions, AllocError>
        ensures { IfOk result (λ s. s ≡ self.now) }
    {
        Ok(SharedVersions {
            list: Arc::try_clone(&self.list)?,
        })
    }

    /// The versions, from the nearest call on.
    pub(crate) fn versions(&self) -> &[Version]
        ensures { result.now ≡ self.now }
    {
        self.list.as_slice()
    }

    /// Whether it has these versions. Takes no memory.
    pub fn is(&self, versions: &[Version]) -> bool
        ensures { (result ≡ true) ↔ (self.now ≡ versions.now) }
    {
        same_versions(self.versions(), versions)
    }
}

/// Whether two lists of versions are equal.
pub(crate) fn same_versions(left: &[Version], right: &[Version]) -> bool
    ensures { (result ≡ true) ↔ (left.now ≡ right.now) }
{
    if left.len() != right.len() {
        return false;
    }
    for i in 0..left.len() {
        if left[i] != right[i] {
            return false;
        }
    }
    true
}
