//! The origin of the answer to a read.

ghost use Rattle.std.specs.Prelude.{◌≡◌};

use crate::shared::{SharedVersions, same_versions};
use std::alloc::{AllocError, Global};
use std::marker::Model;
use std::mem::replace;

/// A version of a key: which run of which call wrote it.
#[derive(Clone, Copy, Debug, PartialEq, Eq)]
pub struct Version {
    /// The index of the call, below 1,024.
    pub writer: u16,
    /// Which run of that call, 0 to 65,534.
    pub incarnation: u16,
}

/// The origin of the answer to a read: the versions that it passed, each of which adds an amount, and what it found below
/// them, a version or the storage before the block.
#[derive(Debug, Drop)]
pub struct Origin {
    source: Source,
}

/// What an origin keeps. The version that was found comes first, beside the mark of the case.
#[derive(Debug, Drop)]
pub(crate) enum Source {
    /// Nothing was passed.
    Plain(Option<Version>),
    /// The versions that were passed, in a list of its own.
    Own(Option<Version>, Vec<Version>),
    /// The same in a list that it shares.
    Shared(Option<Version>, SharedVersions),
}

impl Model for Origin {
    ghost use Rattle.read_set.specs.Origin.{Origin};
    ghost use Rattle.read_set.specs.Source.{bottom_of, passed_of};

    ghost Value = { Origin };

    ghost view = { λ o. record { passed = passed_of o.source; bottom = bottom_of o.source } };
}

impl Origin {
    ghost use Rattle.std.specs.Prelude.{◌≡◌, ◌↔◌, [], IfOk, IfSome, true};
    ghost use Rattle.read_set.specs.Origin.{base_origin};

    /// The storage before the block, with nothing passed. Takes no memory.
    pub fn base(alloc: Global) -> Origin
        ensures { result ≡ base_origin }
    {
        Origin::new(Vec::new(alloc), None)
    }

    /// The origin that passed nothing and found this version, or the storage before the block if it is None. Takes no
    /// memory.
    pub fn plain(bottom: Option<Version>) -> Origin
        ensures { result ≡ record { passed = []; bottom = bottom } }
    {
        Origin {
            source: Source::Plain(bottom),
        }
    }

    /// The origin that passed these versions, from the nearest call on, and found this version below them, or the storage
    /// before the block if it is None. Takes no memory.
    pub fn new(passed: Vec<Version>, bottom: Option<Version>) -> Origin
        ensures { result ≡ record { passed = passed.items; bottom = bottom } }
    {
        Origin {
            source: Source::Own(bottom, passed),
        }
    }

    /// The versions that were passed, from the nearest call on.
    pub fn passed(&self) -> &[Version]
        ensures { result.now ≡ self.now.passed }
    {
        match &self.source {
            Source::Plain(_) => &[],
            Source::Own(_, passed) => passed.as_slice(),
            Source::Shared(_, passed) => passed.versions(),
        }
    }

    /// The version that was found below them, or None for the storage before the block.
    pub fn bottom(&self) -> Option<Version>
        ensures { result ≡ self.now.bottom }
    {
        match &self.source {
            Source::Plain(bottom) => *bottom,
            Source::Own(bottom, _) => *bottom,
            Source::Shared(bottom, _) => *bottom,
        }
    }

    /// Whether two origins are equal. Takes no memory.
    pub fn is(&self, other: &Origin) -> bool
        ensures { (result ≡ true) ↔ (self.now ≡ other.now) }
    {
        self.bottom() == other.bottom() && same_versions(self.passed(), other.passed())
    }

    /// An equal origin. It takes memory only for a list of its own, and is refused if that memory ran out.
    pub fn copy(&self) -> Result<Origin, AllocError>
        ensures { IfOk result (λ o. o ≡ self.now) }
    {
        let source = match &self.source {
            Source::Plain(bottom) => Source::Plain(*bottom),
            Source::Own(bottom, passed) => Source::Own(*bottom, passed.clone()?),
            Source::Shared(bottom, passed) => Source::Shared(*bottom, passed.copy()?),
        };
        Ok(Origin { source })
    }

    /// Puts a shared list in place of its own list of the passed versions, and returns its own list. Both have the same
    /// versions. Takes no memory.
    pub fn share(&mut self, list: &SharedVersions) -> Option<Vec<Version>>
        requires { list.now ≡ self.old.passed }
        ensures same { self.new ≡ self.old }
        ensures own { IfSome result (λ own. own.items ≡ self.old.passed) }
    {
        let Source::Own(bottom, _) = &self.source else {
            return None;
        };
        let shared = match list.copy() {
            Ok(shared) => Source::Shared(*bottom, shared),
            Err(_) => return None,
        };
        match replace(&mut self.source, shared) {
            Source::Own(_, own) => Some(own),
            _ => None,
        }
    }
}
