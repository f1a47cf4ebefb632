//! The fields of a request's line.

ghost use Rattle.std.specs.Prelude.{◌≡◌, Some, None, MatchOption};
ghost use Rattle.session_requests.specs.Requests.{first_part, line_limit, hex_name_of};

use block_file::fields::key;

/// The 32 bytes that 64 lower-case hex digits give. None for any other text.
pub(crate) fn name(text: &[u8]) -> Option<[u8; 32]>
    ensures { result ≡ hex_name_of text.now }
{
    Some(*key(text).ok()?.bytes())
}

/// What comes before the first blank, and what comes after it. None if no blank is among the first 128 bytes.
pub(crate) fn first_part(text: &[u8]) -> Option<(&[u8], &[u8])>
    ensures { MatchOption result (first_part 32 line_limit text.now ≡ None) (λ parts. first_part 32 line_limit text.now ≡ Some (parts.0.now, parts.1.now)) }
{
    for place in 0..128 {
        if place >= text.len() {
            return None;
        }
        if text[place] == b' ' {
            return Some((&text[..place], &text[place + 1..]));
        }
    }
    None
}
