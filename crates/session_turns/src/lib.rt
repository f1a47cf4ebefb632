//! The turn of each request of a session: what it is answered, and what it leaves.
#![tactic(auto)]

mod accepting;
mod answer;
mod begin;
mod bodies;
mod digest;
mod dump;
mod frame;
mod frame_programs;
mod handed_in;
mod kept;
mod making;
mod new_session;
mod pending;
mod program_table;
mod ready;
mod refusal;
mod refusal_parts;
mod room;
mod run;
mod runner;
mod settings;
mod stages;
mod state;
mod state_lines;
mod telling;
mod texts;
mod turn;

pub use answer::{
    Answer, AnswerLine, bytes_of_kept, done_line, failed_line, line_of_kept, refused_line,
};
pub use bodies::{take_begin, take_frame, take_program, take_try};
pub use dump::{EmptyBuffer, dump_length, write_dump};
pub use kept::{KeptAnswer, KeptBytes};
pub use pending::{Pending, PendingBegin, PendingFrame, PendingRun};
pub use program_table::{ProgramTable, SharedImage};
pub use ready::{Ready, make_ready, take_pending};
pub use refusal::{Failure, FrameRefusal};
pub use run::Left;
pub use runner::{CallRunner, InOrder};
pub use settings::Settings;
pub use state::State;
pub use turn::{fail_unkept, pending_long, pending_turn, take_turn};
