//! The text of a word.

ghost use Rattle.std.specs.Prelude.{◌≡◌, ◌++◌, MatchResult};
ghost use Rattle.std.specs.String.{string_bytes};
ghost use Rattle.rv_names.specs.Text.{disassembly};

use rv_names::disassembly;
use std::alloc::{AllocError, Global};

/// Appends the text of a word. The text of an instruction has registers by their x names, signed decimals, distances
/// in bytes, and the upper 20 bits of LUI and AUIPC in hex. An illegal word and a FENCE other than 0x0ff0000f are
/// printed as `.word 0x` and eight hex digits. Refused if memory ran out; the string is then as before.
pub fn disassemble(alloc: Global, word: u32, text: &mut String) -> Result<(), AllocError>
    ensures { MatchResult result
        (λ _. string_bytes text.new ≡ string_bytes text.old ++ disassembly word)
        (λ _. string_bytes text.new ≡ string_bytes text.old) }
{
    text.push_str(disassembly(alloc, word)?.as_str())
}
