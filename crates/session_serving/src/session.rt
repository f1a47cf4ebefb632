//! A session, whatever keeps it.

ghost use Rattle.std.specs.Prelude.{◌≡◌, ◌∷◌, IfErr, IfOk, List, OnOk, ℕ};
ghost use Rattle.session_requests.specs.Requests.{Ask, Last};
ghost use Rattle.session_serving.specs.Asking.{AsksPending, IsStorable};
ghost use Rattle.session_serving.specs.Writing.{PrintsText};
ghost use Rattle.session_turns.specs.Pending.{IsNewProgram};
ghost use Rattle.session_turns.specs.declared.settings.Settings.{Settings};
ghost use Rattle.session_turns.specs.declared.state.State.{State};

use byte_streams::{Destination, WriteFault};
use session_turns::{Pending, Settings, State};
use std::alloc::Global;

/// A session: its state in memory, and what keeps it.
pub trait Session {
    /// The answer to a request.
    type Reply: Drop;

    /// Why a request shuts the session.
    type Fault: Drop;

    /// The state that answers requests.
    ghost state: { Self → State };

    /// What keeps a session of these settings has this one, while it is open.
    ghost is_kept: { Settings → Self → Type 0 };

    /// No request shut it.
    ghost is_open: { Self → Type 0 };

    /// What it may answer to a request, and what the request makes of it.
    ghost answers: { Settings → Self → Ask → List ℕ → Self → Type 0 };

    /// By what fault a request may shut it, and what the request makes of it.
    ghost shuts: { Settings → Self → Ask → Self.Fault → Self → Type 0 };

    /// What a crash of the second session may leave. The first is the session before these requests: at most the first of them is
    /// done.
    ghost leaves: { Settings → Self → List Ask → Self → Type 0 };

    /// The text of an answer in the session that it leaves.
    ghost text_of: { Self → Self.Reply → List ℕ };

    /// The state in memory.
    fn state(&self) -> &State
        ensures { result.now ≡ state self.now };

    /// The answer to a `last`, which changes nothing.
    fn last(&self) -> Self::Reply
        ensures { (settings : Settings) → answers settings self.now Last (text_of self.now result) self.now };

    /// Keeps what is pending of a request with these bytes after its line, and answers the request. Refused if that shuts the
    /// session.
    fn keep(
        &mut self,
        alloc: Global,
        settings: Settings,
        body: &[u8],
        pending: Pending,
    ) -> Result<Self::Reply, Self::Fault>
        requires kept { is_kept settings self.old }
        requires sound { is_open self.old }
        requires new { IsNewProgram (state self.old) pending }
        requires storable { IsStorable body.now pending }
        ensures ok { IfOk result (λ reply. (ask : Ask) → AsksPending settings (state self.old) ask pending → answers settings self.old ask (text_of self.new reply) self.new) }
        ensures err { IfErr result (λ fault. (ask : Ask) → AsksPending settings (state self.old) ask pending → shuts settings self.old ask fault self.new) }
        ensures crash { (ask : Ask) → AsksPending settings (state self.old) ask pending → (rest : List Ask) → leaves settings self.old (ask ∷ rest) self.new }
        ensures kept { is_kept settings self.new }
        ensures sound { OnOk result (is_open self.new) };

    /// Writes an answer in the session that it leaves, and flushes it. Refused if a write failed; a beginning of the answer was
    /// written.
    fn write<W: Destination>(&self, reply: Self::Reply, out: &mut W) -> Result<(), WriteFault>
        ensures { PrintsText W.Destination result out.old out.new (text_of self.now reply) };

    /// Between two requests a crash leaves the session as it is.
    ghost settled: { (settings : Settings) (s : Self) (rest : List Ask) → is_kept settings s → is_open s → leaves settings s rest s };
}
