//! The arguments of a call, as the fields of a line.

ghost use Rattle.std.specs.Prelude.{◌≡◌, ◌&&◌, length, nat_le, nat_lt};
ghost use Rattle.rv_ledger.specs.Height.{greatest_height};
ghost use Rattle.rvstm_c.specs.Settings.{most_number};
ghost use Rattle.session_requests.specs.Requests.{digest_of, hex_name_of};

use block_file::fields::key;
use rv_ledger::GREATEST_HEIGHT;

/// The greatest number of ten digits. No length is greater, and no setting but the number that stands for no bound.
pub(crate) const MOST_NUMBER: u64 = 9_999_999_999;

/// The 32 bytes that 64 lower-case hex digits give. None for any other text.
pub(crate) fn name_of(text: &[u8]) -> Option<[u8; 32]>
    ensures { result ≡ hex_name_of text.now }
{
    Some(*key(text).ok()?.bytes())
}

/// A digest in 64 digits, or `-` if there is none. None for any other text.
pub(crate) fn digest_of(text: &[u8]) -> Option<Option<[u8; 32]>>
    ensures { result ≡ digest_of text.now }
{
    if text == b"-".as_slice() {
        return Some(None);
    }
    match name_of(text) {
        Some(digest) => Some(Some(digest)),
        None => None,
    }
}

/// Whether there are more bytes than a line can say: 9,999,999,999.
pub(crate) fn is_long(bytes: &[u8]) -> bool
    ensures { result ≡ nat_lt most_number (length bytes.now) }
{
    bytes.len() as u64 > MOST_NUMBER
}

/// Whether a height is above the greatest one.
pub(crate) fn is_high(height: u64) -> bool
    ensures { result ≡ nat_lt greatest_height height }
{
    height > GREATEST_HEIGHT
}

/// Whether a count is 1 to 1,024.
pub(crate) fn is_count(count: u64) -> bool
    ensures { result ≡ nat_le 1 count && nat_le count 1024 }
{
    1 <= count && count <= 1024
}
