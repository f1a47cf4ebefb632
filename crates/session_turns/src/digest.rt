//! The digest of a session's answers.

ghost use Rattle.std.specs.Prelude.{◌≡◌};
ghost use Rattle.session_turns.specs.Replies.{kept_reply};
ghost use Rattle.session_turns.specs.Turn.{next_digest};

use crate::answer::{bytes_of_kept, line_of_kept};
use crate::kept::KeptAnswer;
use sha2::{Digest, Sha256};

/// The digest after an answer, if one is kept: SHA-256 (FIPS 180-4) of the one before it, the answer's line and its bytes.
pub(crate) fn next_digest(digest: Option<[u8; 32]>, kept: &KeptAnswer) -> Option<[u8; 32]>
    ensures { result ≡ next_digest digest (kept_reply kept.now) }
{
    let digest = digest?;
    let line = line_of_kept(kept);
    let mut hasher = Sha256::new();
    hasher.update(digest.as_slice());
    hasher.update(line.as_str().as_bytes());
    hasher.update(bytes_of_kept(kept));
    Some(hasher.finalize())
}
