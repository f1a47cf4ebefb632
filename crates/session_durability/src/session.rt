//! A session over a file.

use session_file::{AnswerRow, SessionFile};
use session_turns::State;
use sqlite_trees::store::Store;

/// A session, and the file that keeps it.
#[derive(Drop)]
pub struct FileSession<S: Store> {
    /// The file.
    pub file: SessionFile<S>,
    /// The state in memory.
    pub state: State,
    /// The last answer that was found in the file. It counts until a frame counts or the session begins again.
    pub found: Option<AnswerRow>,
}
