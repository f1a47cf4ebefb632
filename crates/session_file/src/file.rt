//! A file of a session: what is staged in it, and what is kept.

use crate::rows::SessionRow;
use crate::writing::{self, PROGRAM_TREE};
use overlay::Overlay;
use rv_ledger::Key;
use session_tree::{remove_key, set_key};
use sqlite_trees::error::StoreError;
use sqlite_trees::store::Store;
use sqlite_value::row::Row;
use std::alloc::Global;
use std::marker::Model;

/// A store that keeps a session. Contracts see the store.
///
/// Changes are staged in the open transaction, one part after another, and kept by `commit`. If a part is refused, all that was
/// staged is given up. A refusal leaves the file as the last commit did, or shuts it.
#[derive(Drop)]
pub struct SessionFile<S: Store> {
    store: S,
    row: Row,
}

impl<S: Store> Model for SessionFile<S> {
    ghost use Rattle.sqlite_trees.specs.View.{IsClean};
    ghost use Rattle.session_file.specs.Staging.{IsShaped};

    ghost Value = { S };

    ghost coded = { S.code };

    ghost view = { λ f. f.store };

    ghost invariant = { λ f. IsClean (S.Store.view f.store) → IsShaped (S.Store.view f.store) };
}

impl<S: Store> SessionFile<S> {
    ghost use Rattle.std.specs.Prelude.{◌≡◌, ◌⊎◌, false, None, Some, OnErr, OnOk};
    ghost use Rattle.std.specs.FinMap as fin;
    ghost use Rattle.sqlite_trees.specs.Tree.{Trees};
    ghost use Rattle.sqlite_trees.specs.View.{IsClean, IsQuiet};
    ghost use Rattle.session_tree.specs.Entries.{IsTooLong};
    ghost use Rattle.overlay.specs.Overlay.{with_changes};
    ghost use Rattle.session_file.specs.Kept.{Kept, HoldsIn};
    ghost use Rattle.session_file.specs.Limits.{HasSmallNumbers, IsLongAnswer};
    ghost use Rattle.session_file.specs.Staging.{CommitsStaged, FailsFor, GivesUp, IsShaped, IsStaged, Lasts, StagesKept, StagesIn, StagesWhere};

    /// The file over a store that has the trees of a session.
    pub(crate) fn over(alloc: Global, store: S) -> SessionFile<S>
        requires { IsClean (S.Store.view store) → IsShaped (S.Store.view store) }
        ensures { result ≡ store }
    {
        SessionFile {
            store,
            row: Row::new(alloc),
        }
    }

    /// The store alone.
    pub fn into_store(self) -> S
        ensures store { result ≡ self }
        ensures shaped { IsClean (S.Store.view self) → IsShaped (S.Store.view self) }
    {
        let SessionFile { store, row: _ } = self;
        store
    }

    /// Stages the changes of a frame, over the storage that was staged or kept before.
    pub fn stage_changes(
        &mut self,
        base: &rv_ledger::Store,
        changes: &Overlay,
    ) -> Result<(), StoreError>
        ensures { StagesIn S.Store (StagesWhere (λ next. next.storage ≡ base.now) (λ next. record next { storage = with_changes base.now changes.now })) GivesUp ⊥ self.old self.new result }
    {
        let result = writing::change_entries(&mut self.store, &mut self.row, base, changes);
        writing::settled(&mut self.store, result)
    }

    /// Stages a whole storage in the place of the one that was staged or kept before.
    pub fn stage_storage(
        &mut self,
        base: &rv_ledger::Store,
        storage: &rv_ledger::Store,
    ) -> Result<(), StoreError>
        ensures { StagesIn S.Store (StagesWhere (λ next. next.storage ≡ base.now) (λ next. record next { storage = storage.now })) GivesUp ⊥ self.old self.new result }
    {
        let result = writing::replace_entries(&mut self.store, &mut self.row, base, storage);
        writing::settled(&mut self.store, result)
    }

    /// Stages a program under its name, in the place of one of that name. Refused as Unstorable if its row has over a billion
    /// bytes.
    pub fn stage_program(&mut self, name: &Key, file: &[u8]) -> Result<(), StoreError>
        ensures { StagesIn S.Store (StagesKept (λ next. record next { programs = fin.insert next.programs name.now file.now })) GivesUp (IsTooLong name.now (Some file.now)) self.old self.new result }
    {
        let result = set_key(
            &mut self.store,
            PROGRAM_TREE,
            &mut self.row,
            name.bytes(),
            file,
        );
        writing::settled(&mut self.store, result)
    }

    /// Stages that no program has a name.
    pub fn stage_no_program(&mut self, name: &Key) -> Result<(), StoreError>
        ensures { StagesIn S.Store (StagesKept (λ next. record next { programs = fin.remove next.programs name.now })) GivesUp ⊥ self.old self.new result }
    {
        let result = remove_key(&mut self.store, PROGRAM_TREE, &mut self.row, name.bytes());
        writing::settled(&mut self.store, result)
    }

    /// Stages the row of the session. Refused as Unstorable if the height is above 9,999,999,999, or another number is 2^63 or
    /// above.
    pub fn stage_session(&mut self, session: SessionRow) -> Result<(), StoreError>
        ensures { StagesIn S.Store (StagesKept (λ next. record next { session = Some session })) GivesUp (¬ HasSmallNumbers session) self.old self.new result }
    {
        let result = writing::put_session(&mut self.store, &mut self.row, session);
        writing::settled(&mut self.store, result)
    }

    /// Stages what the last frame was answered: its line and its bytes. Refused as Unstorable if the row has over a billion
    /// bytes.
    pub fn stage_answer(&mut self, line: &[u8], bytes: &[u8]) -> Result<(), StoreError>
        ensures { StagesIn S.Store (StagesKept (λ next. record next { answer = Some (line.now, bytes.now) })) GivesUp (IsLongAnswer (line.now, bytes.now)) self.old self.new result }
    {
        let result = writing::put_answer(&mut self.store, &mut self.row, line, bytes);
        writing::settled(&mut self.store, result)
    }

    /// Stages that there is no last answer.
    pub fn stage_no_answer(&mut self) -> Result<(), StoreError>
        ensures { StagesIn S.Store (StagesKept (λ next. record next { answer = None })) GivesUp ⊥ self.old self.new result }
    {
        let result = writing::clear_answer(&mut self.store);
        writing::settled(&mut self.store, result)
    }

    /// Keeps what was staged: if this is not refused, it is on the disk. Refused if the store fails. Then nothing is staged, and
    /// the file keeps what it kept before, unless it is shut. After a crash inside this call the file keeps the one or the other.
    pub fn commit(&mut self) -> Result<(), StoreError>
        ensures ok { OnOk result (CommitsStaged (S.Store.view self.old) (S.Store.view self.new)) }
        ensures sound { OnOk result (IsClean (S.Store.view self.new) → (S.Store.view self.new).is_broken ≡ false) }
        ensures err { OnErr result (GivesUp (S.Store.view self.old) (S.Store.view self.new)) }
        ensures crash { (kept next : Kept) → IsStaged (S.Store.view self.old) kept next
            → (db : Trees) → S.Store.recovers self.new db → HoldsIn db next ⊎ S.Store.recovers self.old db }
        ensures fails { FailsFor S.Store ⊥ self.old self.new result }
        ensures lasts { Lasts S.Store self.old self.new }
    {
        self.store.commit()
    }

    /// Gives up what was staged.
    pub fn rollback(&mut self)
        ensures back { GivesUp (S.Store.view self.old) (S.Store.view self.new) }
        ensures quiet { IsQuiet S.Store.view S.Store.faults S.Store.recovers S.Store.is_shielded self.old self.new }
    {
        self.store.rollback();
    }

    /// Whether it is shut: a failure that only another open mends.
    pub fn is_shut(&self) -> bool
        ensures { IsClean (S.Store.view self.now) → result ≡ (S.Store.view self.now).is_broken }
    {
        self.store.is_broken()
    }
}
