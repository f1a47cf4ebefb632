//! A law of the definitions of `rv_names`: the text of each word reads as a line of source for that word.

ghost use Rattle.rv_text.specs.Back.{IsReadBack};

use rv_isa::decode;

/// A law: the text of a word is a line of source, without a label, that stands for just that word.
pub(crate) fn text_is_read_back(word: u32)
    ensures { IsReadBack word }
{
    let _instr = decode(word);
}
