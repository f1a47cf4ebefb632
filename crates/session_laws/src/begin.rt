//! A session that begins with another one's dump, and continues as that one.

ghost use Rattle.std.specs.Prelude.{◌≡◌, ◌≢◌, ◌<◌, ◌++◌, ◌∷◌, [], ℕ, List, All, codes, true};
ghost use Rattle.std.specs.FinMap.{entries};
ghost use Rattle.rv_ledger.specs.Height.{greatest_height};
ghost use Rattle.session_requests.specs.Requests.{Ask, Begin, Frame, Last};
ghost use Rattle.session_laws.specs.Begun.{EqualButLast, asks_last_late, begun_from};
ghost use Rattle.session_laws.specs.Chained.{IsEntry};
ghost use Rattle.session_serving.specs.Serving.{AreAnswered, answers_in_turn, state_after};
ghost use Rattle.session_turns.specs.Failures.{IsAnswer};
ghost use Rattle.session_turns.specs.Replies.{Done};
ghost use Rattle.session_turns.specs.Telling.{dump_text};
ghost use Rattle.session_turns.specs.Turn.{agree, new_session, turn};
ghost use Rattle.session_turns.specs.declared.settings.Settings.{Settings};
ghost use Rattle.session_turns.specs.declared.state.State.{State};

use crate::storage::are_entries;
use session_turns::State;

/// A law, and no code: `begin` hands a session t the dump, the height and the digest of a session s. Then t has all that s has,
/// except that its programs stay and that it has no last answer. This holds if the keys of s have 32 bytes and its values at most
/// what its rules allow, and if both sessions keep a digest or neither does.
pub fn begin_after_dump()
    ensures { (settings : Settings) (s t : State) → All (IsEntry s.rules) (entries s.store) → agree s.digest t.digest ≡ true
        → turn settings t (Begin s.height s.digest (dump_text s.rules s.store)) ≡ record { reply = Done []; after = begun_from s t } }
{}

/// A law, and no code: two sessions that differ at most in their last answer give the same answer to each request except `last`.
/// After each request they differ at most in their last answer, and after a frame that counts they are equal. So they give the
/// same answers to a list of requests if no `last` comes before the first such frame.
pub fn begun_answers_alike()
    ensures reply { (settings : Settings) (s t : State) (ask : Ask) → EqualButLast s t → ask ≢ Last
        → (turn settings s ask).reply ≡ (turn settings t ask).reply }
    ensures after { (settings : Settings) (s t : State) (ask : Ask) → EqualButLast s t
        → EqualButLast (turn settings s ask).after (turn settings t ask).after }
    ensures frame { (settings : Settings) (s t : State) (bytes : List ℕ) → EqualButLast s t → s.height < greatest_height
        → (turn settings s (Frame bytes)).after ≡ (turn settings t (Frame bytes)).after }
    ensures answers { (settings : Settings) (s t : State) (asks : List Ask) → EqualButLast s t → asks_last_late settings s asks ≡ true
        → answers_in_turn settings s asks ≡ answers_in_turn settings t asks }
    ensures left { (settings : Settings) (s t : State) (asks : List Ask) → EqualButLast s t
        → EqualButLast (state_after settings s asks) (state_after settings t asks) }
{}

/// A law, and no code: a session t has the programs of a session s, and gets its dump, height and digest by `begin`. It answers
/// that by `ok 0`, and the requests after it as s does if no `last` comes before the first frame that counts. What both leave
/// differs at most in the last answer. This holds if the keys of s have 32 bytes and its values at most what its rules allow, and
/// if both sessions keep a digest or neither does.
pub fn begun_session_answers_alike()
    ensures answers { (settings : Settings) (s t : State) (asks : List Ask)
        → All (IsEntry s.rules) (entries s.store) → agree s.digest t.digest ≡ true → t.programs ≡ s.programs → asks_last_late settings s asks ≡ true
        → answers_in_turn settings t (Begin s.height s.digest (dump_text s.rules s.store) ∷ asks) ≡ codes "ok 0\n" ++ answers_in_turn settings s asks }
    ensures left { (settings : Settings) (s t : State) (asks : List Ask)
        → All (IsEntry s.rules) (entries s.store) → agree s.digest t.digest ≡ true → t.programs ≡ s.programs
        → EqualButLast (state_after settings s asks) (state_after settings t (Begin s.height s.digest (dump_text s.rules s.store) ∷ asks)) }
{}

/// The same law for a session s that a program holds and that came from a new one by requests, at some of which memory may have
/// run out. Nothing is required of its keys and values then. It walks over the storage and changes nothing.
pub fn held_session_answers_alike(s: &State)
    ensures answers { (settings : Settings) (t : State) (before asks : List Ask) (text : List ℕ)
        → AreAnswered (IsAnswer settings) (new_session settings) before text s.now
        → agree s.now.digest t.digest ≡ true → t.programs ≡ s.now.programs → asks_last_late settings s.now asks ≡ true
        → answers_in_turn settings t (Begin s.now.height s.now.digest (dump_text s.now.rules s.now.store) ∷ asks) ≡ codes "ok 0\n" ++ answers_in_turn settings s.now asks }
    ensures left { (settings : Settings) (t : State) (before asks : List Ask) (text : List ℕ)
        → AreAnswered (IsAnswer settings) (new_session settings) before text s.now
        → agree s.now.digest t.digest ≡ true → t.programs ≡ s.now.programs
        → EqualButLast (state_after settings s.now asks) (state_after settings t (Begin s.now.height s.now.digest (dump_text s.now.rules s.now.store) ∷ asks)) }
{
    are_entries(&s.store);
}
