//! Answering the requests of an input one after another.

ghost use Rattle.std.specs.Prelude.{◌≡◌, ◌<◌, IfErr, IfOk, IfSome, List, None, OnErr, OnOk, ℕ};
ghost use Rattle.session_requests.specs.Reading.{ReadsRequest, WhereKnown, ask_of};
ghost use Rattle.session_requests.specs.Requests.{Ask, Is, request_in_bytes};
ghost use Rattle.session_serving.specs.Asking.{AsksPending, AnswersOrShuts, IsCourse, IsStorable, IsFaultAnswered, StaysOpen, body_in};
ghost use Rattle.session_serving.specs.Serving.{IsEndedBy, IsServed, IsSessionStopped, MayEnd};
ghost use Rattle.session_turns.specs.Pending.{IsNewProgram};

use crate::session::Session;
use crate::writing::print_end;
use byte_streams::{BufferedSource, Destination, WriteFault};
use session_requests::{Asked, Request, RequestFault, next_request};
use session_turns::{CallRunner, Pending, Settings, fail_unkept, pending_long, pending_turn};
use std::alloc::Global;
use std::io;

/// Why a session ends before a `q` and before its input's end.
#[derive(Clone, Copy, Debug, PartialEq, Eq)]
pub enum ServeFault<F> {
    /// The next bytes are no request. The refusal was written.
    Broken(RequestFault),
    /// A read failed.
    Unreadable,
    /// A write failed.
    Output(WriteFault),
    /// A request shut the session; only opening it again helps. The request has no answer; the next session shows whether it was
    /// kept.
    Shut(F),
}

/// What follows from what was read.
#[derive(Drop)]
enum Course<R, F> {
    /// A request, and this is its answer.
    Answers(R),
    /// The end: a `q`, or the end of the input.
    Ends,
    /// The end, since the next bytes are no request.
    Breaks(RequestFault),
    /// The end, since a request shut the session.
    Shuts(F),
}

/// Answers each request of an input, up to a `q`, which has no answer, or the input's end. A runner runs the calls of its
/// frames. Each answer is written and flushed before more is read. The first fault ends the session: Broken if the next
/// bytes are no request, which is answered too; Unreadable if a read failed, before anything of a request was done, and
/// after 2^64 - 1 requests; Output if a write failed: a beginning of the answer was written, and what it says was done;
/// Shut if a request shut the session.
///
/// Wherever the session ends, a crash leaves what the requests that were answered in whole left, or the next one too, as far as
/// `leaves` says so of this session.
pub fn serve<R: BufferedSource, M: Session, C: CallRunner, W: Destination>(
    alloc: Global,
    input: &mut R,
    runner: &mut C,
    settings: Settings,
    session: &mut M,
    out: &mut W,
) -> Result<(), ServeFault<M::Fault>>
    requires ready { C.ready }
    requires kept { M.is_kept settings session.old }
    requires sound { M.is_open session.old }
    ensures ok { OnOk result (IfSome (R.remaining input.old) (λ bytes. IsServed (M.answers settings) None session.old bytes session.new (W.contents out.old) (W.contents out.new))) }
    ensures err { IfErr result (λ fault. IfSome (R.remaining input.old) (λ bytes.
        IsEndedBy (R.may_fail input.old) (M.answers settings) (M.shuts settings) fault session.old bytes session.new (W.contents out.old) (W.contents out.new))) }
    ensures stopped { IfSome (R.remaining input.old) (λ bytes. IsSessionStopped (M.answers settings) (M.leaves settings) session.old bytes session.new (W.contents out.old) (W.contents out.new)) }
    ensures kept { M.is_kept settings session.new }
    ensures refused { IfErr result (MayEnd (W.may_refuse out.old)) }
{
    for answers in 0..u64::MAX {
        let asked = match read_after_flush(alloc, input, settings.frame_limit, answers, out) {
            Ok(asked) => asked,
            Err(io::Error { .. }) => return Err(ServeFault::Unreadable),
        };
        let reply = match take_asked(alloc, runner, settings, session, asked) {
            Course::Answers(reply) => reply,
            Course::Ends => return Ok(()),
            Course::Breaks(fault) => return Err(answer_broken(fault, out)),
            Course::Shuts(fault) => return Err(ServeFault::Shut(fault)),
        };
        match session.write(reply, out) {
            Ok(()) => {}
            Err(fault) => return Err(ServeFault::Output(fault)),
        }
    }
    Err(ServeFault::Unreadable)
}

/// Reads the next request, as `next_request` does, after a number of answers to a writer, the last of which is flushed.
fn read_after_flush<R: BufferedSource, W: Destination>(
    alloc: Global,
    input: &mut R,
    frame_limit: u64,
    answers: u64,
    _out: &W,
) -> io::Result<Asked>
    requires flushed { 0 < answers → W.is_flushed _out.now }
    ensures says { IfOk result (λ asked. WhereKnown (R.remaining input.old) (R.remaining input.new) (ReadsRequest frame_limit asked)) }
    ensures fails { OnErr result (R.may_fail input.old) }
    ensures same { R.may_fail input.new → R.may_fail input.old }
{
    next_request(alloc, input, frame_limit)
}

/// Does what was read.
fn take_asked<M: Session, C: CallRunner>(
    alloc: Global,
    runner: &mut C,
    settings: Settings,
    session: &mut M,
    asked: Asked,
) -> Course<M::Reply, M::Fault>
    requires ready { C.ready }
    requires kept { M.is_kept settings session.old }
    requires sound { M.is_open session.old }
    ensures says { (xs ys : List ℕ) → ReadsRequest settings.frame_limit asked xs ys → IsCourse (M.answers settings) (M.shuts settings) (M.leaves settings) M.text_of session.old result session.new xs ys }
    ensures kept { M.is_kept settings session.new }
    ensures sound { StaysOpen (M.is_open session.new) result }
{
    match asked {
        Asked::Whole(request) => take_request(alloc, runner, settings, session, request),
        Asked::TooLong(line) => {
            let pending = pending_long(alloc, session.state(), line);
            take_pending(alloc, settings, session, &[], pending)
        }
        Asked::Unkept(line) => {
            let answer = fail_unkept(session.state(), line);
            take_pending(alloc, settings, session, &[], Pending::Nothing(answer))
        }
        Asked::Broken(fault) => Course::Breaks(fault),
        Asked::End => Course::Ends,
    }
}

/// Does what a request asks for. A `q` has no answer, and a `last` has the one that the session has last.
fn take_request<M: Session, C: CallRunner>(
    alloc: Global,
    runner: &mut C,
    settings: Settings,
    session: &mut M,
    request: Request,
) -> Course<M::Reply, M::Fault>
    requires ready { C.ready }
    requires kept { M.is_kept settings session.old }
    requires sound { M.is_open session.old }
    ensures says { (xs ys : List ℕ) → request_in_bytes xs ≡ Is (ask_of request) ys → IsCourse (M.answers settings) (M.shuts settings) (M.leaves settings) M.text_of session.old result session.new xs ys }
    ensures kept { M.is_kept settings session.new }
    ensures sound { StaysOpen (M.is_open session.new) result }
{
    match request {
        Request::Quit => Course::Ends,
        Request::Last => Course::Answers(session.last()),
        request => {
            let pending = pending_turn(alloc, runner, settings, session.state(), &request);
            take_pending(alloc, settings, session, body_of(&request), pending)
        }
    }
}

/// The bytes of a program that a request hands in; none of any other.
fn body_of(request: &Request) -> &[u8]
    ensures { result.now ≡ body_in (ask_of request.now) }
{
    match request {
        Request::Program(file) => file.as_slice(),
        _ => &[],
    }
}

/// Keeps what is pending of a request with these bytes after its line.
fn take_pending<M: Session>(
    alloc: Global,
    settings: Settings,
    session: &mut M,
    body: &[u8],
    pending: Pending,
) -> Course<M::Reply, M::Fault>
    requires kept { M.is_kept settings session.old }
    requires sound { M.is_open session.old }
    requires new { IsNewProgram (M.state session.old) pending }
    requires storable { IsStorable body.now pending }
    ensures says { (ask : Ask) → AsksPending settings (M.state session.old) ask pending
        → AnswersOrShuts (M.answers settings) (M.shuts settings) (M.leaves settings) M.text_of session.old ask result session.new }
    ensures kept { M.is_kept settings session.new }
    ensures sound { StaysOpen (M.is_open session.new) result }
{
    match session.keep(alloc, settings, body, pending) {
        Ok(reply) => Course::Answers(reply),
        Err(fault) => Course::Shuts(fault),
    }
}

/// Answers bytes that are no request, and returns why the session ends: Broken, or Output if a write failed.
fn answer_broken<F, W: Destination>(fault: RequestFault, out: &mut W) -> ServeFault<F>
    ensures told { IsFaultAnswered fault result (W.contents out.old) (W.contents out.new) }
    ensures refused { MayEnd (W.may_refuse out.old) result }
{
    match print_end(fault, out) {
        Ok(()) => ServeFault::Broken(fault),
        Err(fault) => ServeFault::Output(fault),
    }
}
