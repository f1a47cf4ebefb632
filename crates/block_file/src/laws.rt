//! Any two answers to the same text agree, and a file says the same in both formats.

ghost use Rattle.std.specs.Prelude.{◌≡◌, List, Ok, Result, Vec, ℕ};
ghost use Rattle.std.specs.declared.alloc.Global.{Global};
ghost use Rattle.block_file.specs.declared.block_text.BlockText.{BlockText};
ghost use Rattle.block_file.specs.declared.fault.BlockFault.{BlockFault};
ghost use Rattle.block_file.specs.Answer.{HadMemory, ReadsFile, said};
ghost use Rattle.block_file.specs.Block.{block_value, parsed_block};
ghost use Rattle.block_file.specs.Migrate.{migrated};
ghost use Rattle.block_file.specs.Schedule.{parsed_schedule};

/// A law, and no code: a block file has one reading, a schedule file too, and a block file of format 1 has one
/// migration. If two answers to the same bytes did not run out of memory, they say the same: one value or one fault.
pub fn one_reading()
    ensures block { (bytes : List ℕ) (first second : Result BlockText BlockFault)
        → ReadsFile block_value first (parsed_block bytes) → ReadsFile block_value second (parsed_block bytes)
        → HadMemory first → HadMemory second
        → said block_value first ≡ said block_value second }
    ensures schedule { (bytes : List ℕ) (first second : Result (Vec ℕ Global) BlockFault)
        → ReadsFile (λ entries. entries.items) first (parsed_schedule bytes)
        → ReadsFile (λ entries. entries.items) second (parsed_schedule bytes)
        → HadMemory first → HadMemory second
        → said (λ entries. entries.items) first ≡ said (λ entries. entries.items) second }
    ensures migration { (bytes : List ℕ) (first second : Result (Vec ℕ Global) BlockFault)
        → ReadsFile (λ text. text.items) first (migrated bytes)
        → ReadsFile (λ text. text.items) second (migrated bytes)
        → HadMemory first → HadMemory second
        → said (λ text. text.items) first ≡ said (λ text. text.items) second }
{}

/// A law, and no code: a file that was migrated says what it said before.
pub fn migrated_says_the_same()
    ensures { (bytes text : List ℕ) → migrated bytes ≡ Ok text → parsed_block text ≡ parsed_block bytes }
{}
