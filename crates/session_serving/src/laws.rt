//! Laws of sessions.

ghost use Rattle.std.specs.Prelude.{◌≡◌, List, ℕ};
ghost use Rattle.session_requests.specs.Requests.{Ask};
ghost use Rattle.session_serving.specs.Serving.{AreAnswered, answers_in_turn, state_after};
ghost use Rattle.session_turns.specs.Failures.{IsAnswer, IsAnsweredAsTurn};
ghost use Rattle.session_turns.specs.Replies.{Failed, turn_reply_text};
ghost use Rattle.session_turns.specs.declared.refusal.Failure.{Failure};
ghost use Rattle.session_turns.specs.declared.settings.Settings.{Settings};
ghost use Rattle.session_turns.specs.declared.state.State.{State};

/// A law, and no code: if memory did not run out, what a session wrote is the answers one after another, each over what
/// the ones before it left, and the session is as all of them leave it. So equal requests and settings have equal answers.
#[tactic(auto, using(crate::proofs::Folds::wanted_fold))]
pub fn session_is_a_fold()
    ensures { (settings : Settings) (s after : State) (asks : List Ask) (text : List ℕ)
        → AreAnswered (IsAnsweredAsTurn settings) s asks text after → (text ≡ answers_in_turn settings s asks) × (after ≡ state_after settings s asks) }
{}

/// A law, and no code: a request that failed leaves the session as it was. So it may be given again, and is answered then as
/// it would have been at first, and so is all that follows.
#[tactic(auto, using(crate::proofs::Failed::nothing_changes))]
pub fn failed_request_may_be_given_again()
    ensures { (settings : Settings) (s after : State) (ask : Ask) (failure : Failure)
        → IsAnswer settings s ask (turn_reply_text (Failed failure)) after → after ≡ s }
{}
