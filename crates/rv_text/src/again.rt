//! Laws of assembling the texts of words: the words come back.

ghost use Rattle.std.specs.Prelude.{◌≡◌, ◌≤◌, ◌*◌, ◌∷◌, [], All, Ok, length};
ghost use Rattle.rv_names.specs.Text.{disassembly};
ghost use Rattle.rv_text.specs.Assembly.{assembled};
ghost use Rattle.rv_text.specs.Back.{IsAssembledBack, IsReadBack};

use crate::laws::text_is_read_back;
use rv_program::Program;

/// A law: the text of a word, as a source, gives the program with just that word and no data.
#[tactic(auto, using(crate::proofs::Listings::assembled_disassembly))]
pub fn assembled_again(word: u32)
    ensures { assembled (disassembly word) ≡ Ok (record { text = word ∷ []; data_bytes = [] }) }
{
    text_is_read_back(word);
}

/// A law: the texts of some words, each on a line of its own, give as a source the program with just these words and
/// no data. It holds if the words fit in the text section. The call walks over the words and changes nothing.
pub fn words_assembled_again(words: &[u32])
    ensures { 4 * length words.now ≤ 65536 → IsAssembledBack words.now }
{
    are_read_back(words);
}

/// The same law for the text words of a program, which always fit.
pub fn program_assembled_again(program: &Program)
    ensures { IsAssembledBack program.now.text }
{
    words_assembled_again(program.text());
}

/// The text of each word is a line of source that stands for it.
fn are_read_back(words: &[u32])
    ensures { All IsReadBack words.now }
{
    for word in words {
        text_is_read_back(*word);
    }
}
