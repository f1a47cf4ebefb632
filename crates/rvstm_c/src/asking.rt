//! The requests of a session that a handle has.

ghost use Rattle.std.specs.Prelude.{◌≡◌, None};
ghost use Rattle.session_requests.specs.Reading.{ask_of};
ghost use Rattle.session_requests.specs.Requests.{Ask, Begin, Dump, Forget, Frame, Get, Last, Program, Programs, State as AskState, Try};
ghost use Rattle.session_turns.specs.Stages.{IsTurn};
ghost use Rattle.rvstm_c.specs.Asked.{begin_asked, list_asked, with_bytes, with_name};
ghost use Rattle.rvstm_c.specs.Embedding.{IsCalled, IsNew, TakesTurn};
ghost use Rattle.rvstm_c.specs.declared.session.EmbeddedSession.{EmbeddedSession};

use crate::fields::{digest_of, is_count, is_high, is_long, name_of};
use crate::given::{Given, status_of};
use crate::session::EmbeddedSession;
use crate::status::REFUSED;
use crate::whole::made_whole;
use session_requests::Request;
use session_turns::{
    Answer, InOrder, Settings, State, take_begin, take_frame, take_program, take_try, take_turn,
};
use std::alloc::Global;

impl EmbeddedSession {
    /// A session before its first request.
    pub(crate) fn new(alloc: Global, settings: Settings) -> EmbeddedSession
        ensures { IsNew settings result }
    {
        EmbeddedSession {
            settings,
            state: State::new(alloc, settings),
            given: Given::Answered(Answer::Done(Vec::new(alloc))),
        }
    }

    /// Loads the program of a file. Returns the status.
    pub(crate) fn load_program(&mut self, alloc: Global, file: &[u8]) -> u32
        ensures { IsCalled (with_bytes file.now (Program file.now)) self.old result self.new }
    {
        if is_long(file) {
            return self.refuse_line();
        }
        let answer = take_program(alloc, &mut self.state, file);
        self.keep(alloc, answer)
    }

    /// Runs a frame and keeps what it leaves. Returns the status.
    pub(crate) fn run_frame(&mut self, alloc: Global, bytes: &[u8]) -> u32
        ensures { IsCalled (with_bytes bytes.now (Frame bytes.now)) self.old result self.new }
    {
        if is_long(bytes) {
            return self.refuse_line();
        }
        let answer = take_frame(alloc, &mut InOrder, self.settings, &mut self.state, bytes);
        self.keep(alloc, answer)
    }

    /// Runs a frame and keeps nothing of it. Returns the status.
    pub(crate) fn try_frame(&mut self, alloc: Global, bytes: &[u8]) -> u32
        ensures { IsCalled (with_bytes bytes.now (Try bytes.now)) self.old result self.new }
    {
        if is_long(bytes) {
            return self.refuse_line();
        }
        let answer = take_try(alloc, &mut InOrder, self.settings, &self.state, bytes);
        self.keep(alloc, answer)
    }

    /// Puts the storage of a text in the place of the session's. Returns the status.
    pub(crate) fn begin(&mut self, alloc: Global, height: u64, digest: &[u8], bytes: &[u8]) -> u32
        ensures { IsCalled (begin_asked height digest.now bytes.now) self.old result self.new }
    {
        if is_high(height) || is_long(bytes) {
            return self.refuse_line();
        }
        let Some(digest) = digest_of(digest) else {
            return self.refuse_line();
        };
        let answer = take_begin(alloc, &mut self.state, height, digest, bytes);
        self.keep(alloc, answer)
    }

    /// Frees a program. Returns the status.
    pub(crate) fn forget(&mut self, alloc: Global, name: &[u8]) -> u32
        ensures { IsCalled (with_name Forget name.now) self.old result self.new }
    {
        match name_of(name) {
            Some(name) => self.take(alloc, &Request::Forget(name)),
            None => self.refuse_line(),
        }
    }

    /// Reports what the storage has at a key. Returns the status.
    pub(crate) fn get(&mut self, alloc: Global, key: &[u8]) -> u32
        ensures { IsCalled (with_name Get key.now) self.old result self.new }
    {
        match name_of(key) {
            Some(key) => self.take(alloc, &Request::Get(key)),
            None => self.refuse_line(),
        }
    }

    /// Lists the first entries from a key on. Returns the status.
    pub(crate) fn list(&mut self, alloc: Global, from: &[u8], count: u64) -> u32
        ensures { IsCalled (list_asked from.now count) self.old result self.new }
    {
        let Some(from) = name_of(from) else {
            return self.refuse_line();
        };
        if !is_count(count) {
            return self.refuse_line();
        }
        self.take(alloc, &Request::List(from, count))
    }

    /// Lists the names of the programs. Returns the status.
    pub(crate) fn programs(&mut self, alloc: Global) -> u32
        ensures { TakesTurn Programs self.old result self.new }
    {
        self.take(alloc, &Request::Programs)
    }

    /// Reports its counts and settings. Returns the status.
    pub(crate) fn tell_state(&mut self, alloc: Global) -> u32
        ensures { TakesTurn AskState self.old result self.new }
    {
        self.take(alloc, &Request::State)
    }

    /// Repeats the answer to the last frame that counts. Returns the status.
    pub(crate) fn tell_last(&mut self, alloc: Global) -> u32
        ensures { TakesTurn Last self.old result self.new }
    {
        self.take(alloc, &Request::Last)
    }

    /// Dumps the whole storage. Returns the status.
    pub(crate) fn dump(&mut self, alloc: Global) -> u32
        ensures { TakesTurn Dump self.old result self.new }
    {
        self.take(alloc, &Request::Dump)
    }

    /// Takes the turn of a request. Returns the status.
    fn take(&mut self, alloc: Global, request: &Request) -> u32
        ensures { TakesTurn (ask_of request.now) self.old result self.new }
    {
        let answer = take_turn(alloc, &mut InOrder, self.settings, &mut self.state, request);
        self.keep(alloc, answer)
    }

    /// Keeps the answer of a turn that was taken, in memory. Returns the status.
    fn keep(&mut self, alloc: Global, answer: Answer) -> u32
        ensures { (before : EmbeddedSession) (ask : Ask) → before.settings ≡ self.old.settings
            → IsTurn before.settings before.state ask answer self.old.state → TakesTurn ask before result self.new }
    {
        let whole = made_whole(alloc, &self.state, answer);
        self.given = Given::Answered(whole);
        status_of(&self.state, &self.given)
    }

    /// Refuses what no line can say. Returns the status.
    fn refuse_line(&mut self) -> u32
        ensures { IsCalled None self.old result self.new }
    {
        self.given = Given::BadLine;
        REFUSED
    }
}
