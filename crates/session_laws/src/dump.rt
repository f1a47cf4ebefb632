//! The text of a session's storage, read back as a block file.

ghost use Rattle.std.specs.Prelude.{◌≡◌, All, Ok};
ghost use Rattle.std.specs.FinMap.{entries};
ghost use Rattle.block_file.specs.Block.{parsed_block};
ghost use Rattle.rv_ledger.specs.Key.{Storage};
ghost use Rattle.rv_ledger.specs.declared.rules.Rules.{Rules};
ghost use Rattle.rv_ledger.specs.declared.rules.Rules.TheVariants.{Two};
ghost use Rattle.session_laws.specs.Chained.{AreShort, IsEntry, block_with};
ghost use Rattle.session_turns.specs.Telling.{dump_text};

use crate::storage::are_entries;
use rv_ledger::Store;

/// A law, and no code: what a session answers to `dump` is read as a block file of the session's rules, with its storage, and
/// with neither programs nor calls. This holds if the storage's keys have 32 bytes and its values at most what the rules allow,
/// 64 or 256.
#[tactic(auto, using(crate::proofs::Dumps::dump_read))]
pub fn dump_is_read_back()
    ensures { (rules : Rules) (store : Storage) → All (IsEntry rules) (entries store) → parsed_block (dump_text rules store) ≡ Ok (block_with rules store) }
{}

/// The same law for a storage that a program holds: rules two and three allow each such storage, and rules one those whose
/// values have at most 64 bytes. It walks over the storage and changes nothing.
pub fn dump_is_read_back_of(store: &Store)
    ensures short { AreShort Two store.now }
    ensures read { (rules : Rules) → AreShort rules store.now → parsed_block (dump_text rules store.now) ≡ Ok (block_with rules store.now) }
{
    are_entries(store);
}
