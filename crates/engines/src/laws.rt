//! Laws of what the program does: what commands print over the same files, and of what they put into files.

ghost use Rattle.std.specs.Prelude.{◌≡◌, ◌≤◌, Bool, IsSome, List, [], Ok, Option, Some, length, ℕ};
ghost use Rattle.block_file.specs.Block.{parsed_block};
ghost use Rattle.block_file.specs.Migrate.{migrated};
ghost use Rattle.clap.specs.Words.{Text};
ghost use Rattle.cmdline.specs.Line.{AsmOf, Asked, DriveOf, RunOf, SeqOf};
ghost use Rattle.elf32.specs.Written.{file_of};
ghost use Rattle.engines.specs.Engine.{answer_of};
ghost use Rattle.engines.specs.Headline.{HaveSameFiles, IsListing, IsOfResult, result_of};
ghost use Rattle.engines.specs.Program.{Contents, Prints, PutsFile};
ghost use Rattle.system_files.specs.Entries.{Entries, IsPut};

use rv_text::words_assembled_again;

/// A law, and no code: `seq` writes the same bytes for a block file of format 1 and for the file of format
/// 2 that it is migrated to, whatever the files of its programs hold.
pub fn migrated_runs_alike()
    ensures { (content : List ℕ → Option (List ℕ)) (bytes text : List ℕ) → migrated bytes ≡ Ok text
        → answer_of content (parsed_block text) ≡ answer_of content (parsed_block bytes) }
{}

/// A law, and no code: what `run` prints by any number of workers is what `seq` prints over the same files. So is what `drive`
/// prints along any schedule that is known.
#[tactic(auto, using(crate::proofs::SameFiles::drive_is_seq))]
pub fn run_prints_what_seq_prints()
    ensures run { (content : Contents) (typed old new : Option (List ℕ)) (file : Text) (workers : ℕ) (counts : Bool)
        → Prints content typed old new (RunOf file workers counts) → Prints content typed old new (SeqOf file) }
    ensures drive { (content : Contents) (typed old new : Option (List ℕ)) (file : Text) (workers : ℕ) (schedule : Text) (counts : Bool)
        → IsSome (content schedule) → Prints content typed old new (DriveOf file workers schedule counts) → Prints content typed old new (SeqOf file) }
{}

/// A law, and no code: on two machines that have the same bytes in a block file and in its programs, `seq`, `run` and `drive`
/// print one text, and it is a function of those bytes.
#[tactic(auto, using(crate::proofs::SameFiles::result_same, crate::proofs::SameFiles::one_result))]
pub fn same_files_print_the_same()
    ensures result { (first second : Contents) (file : Text) → HaveSameFiles first second file → result_of first file ≡ result_of second file }
    ensures printed { (first second : Contents) (typed lines : Option (List ℕ)) (one other : List ℕ) (file : Text) (asked wanted : Asked)
        → HaveSameFiles first second file → IsSome (result_of first file) → IsOfResult first file asked → IsOfResult second file wanted
        → Prints first typed (Some []) (Some one) asked → Prints second lines (Some []) (Some other) wanted → one ≡ other }
{}

/// A law: if a source has the third columns of what `dis` printed, each on a line of its own, and there are at most 16,384,
/// `asm` puts a program with exactly the words of the second columns. The call walks over the words and changes nothing.
#[tactic(auto, using(crate::proofs::Again::put_again))]
pub fn listing_is_assembled_again(words: &[u32])
    ensures { (content : Contents) (leads : List ℕ → List ℕ) (old new : Option Entries) (source out : Text) (printed text : List ℕ)
        → IsListing printed words.now text → length words.now ≤ 16384 → content source ≡ Some text → PutsFile content leads old new (AsmOf source out)
        → IsPut old new (leads out) (file_of (record { text = words.now; data_bytes = [] })) }
{
    words_assembled_again(words);
}
