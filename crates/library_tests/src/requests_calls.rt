//! The requests of an input, each printed as a word with what the request has.

use crate::asserts::assert_right;
use session_requests::{Asked, Request, RequestFault, RequestLine, next_request};
use std::alloc::{AllocError, Global};
use std::test::Fail;

/// The greatest length of a frame here.
const FRAME_LIMIT: u64 = 12;

/// The most requests that are read of an input here.
const MOST_REQUESTS: usize = 9;

/// Inputs, each with what they ask for.
const INPUTS: &[(&str, &str)] = &[
    ("", "end"),
    (
        "dump\nstate\nprograms\nlast\nq\nwhat",
        "dump state programs last q bad-line",
    ),
    (
        "frame 12\nend\nq\ndump\0\rq\n",
        "frame 656e640a710a64756d70000d q end",
    ),
    ("try 0\nframe 1\n\nq\n", "try - frame 0a q end"),
    ("frame 3\nab", "cut"),
    ("frame 9999999999\n", "cut"),
    ("frame 13\n0123456789abcq\n", "long 13 q end"),
    ("try 13\n0123456789abcq\n", "long 13 q end"),
    (
        "begin 7 - 13\n0123456789abcq\n",
        "begin 7 30313233343536373839616263 q end",
    ),
    (
        "begin 9999999999 0123456789abcdef0123456789abcdef0123456789abcdef0123456789abcdef 9999999999\n",
        "cut",
    ),
    ("program 2\n\x7fEq\n", "program 7f45 q end"),
    ("program 131073\nab", "cut"),
    ("frame 0100\n", "bad-line"),
    ("frame 5 \n", "bad-line"),
    ("frame 5\r\n", "bad-line"),
    ("Frame 5\n", "bad-line"),
    ("\n", "bad-line"),
    ("q", "bad-line"),
    ("q 1\n", "bad-line"),
    (
        "qqqqqqqqqqqqqqqqqqqqqqqqqqqqqqqqqqqqqqqqqqqqqqqqqqqqqqqqqqqqqqqqqqqqqqqqqqqqqqqqqqqqqqqqqqqqqqqqqqqqqqqqqqqqqqqqqqqqqqqqqqqqqqqq\nq\n",
        "bad-line",
    ),
    ("frame 10000000000\n", "bad-line"),
    ("frame 18446744073709551616\n", "bad-line"),
    (
        "get 00000000000000000000000000000000000000000000000000000000000000ff\nq\n",
        "get 255 q end",
    ),
    (
        "get 00000000000000000000000000000000000000000000000000000000000000FF\n",
        "bad-line",
    ),
    (
        "forget 00000000000000000000000000000000000000000000000000000000000000ff\nq\n",
        "forget 255 q end",
    ),
    (
        "list 00000000000000000000000000000000000000000000000000000000000000ff 1024\nq\n",
        "list 255 1024 q end",
    ),
    (
        "list 00000000000000000000000000000000000000000000000000000000000000ff 0\n",
        "bad-line",
    ),
    (
        "list 00000000000000000000000000000000000000000000000000000000000000ff 1025\n",
        "bad-line",
    ),
];

/// A word, the hex digits of bytes, and a blank.
fn with_bytes(alloc: Global, word: &str, bytes: &[u8]) -> Result<String, AllocError> {
    if bytes.is_empty() {
        return format!(in alloc; "{word} -");
    }
    let digits = hex::encode(alloc, bytes)?;
    format!(in alloc; "{word} {digits}")
}

/// What a request says.
fn request_text(alloc: Global, request: &Request) -> Result<String, AllocError> {
    match request {
        Request::Program(file) => with_bytes(alloc, "program", file.as_slice()),
        Request::Frame(bytes) => with_bytes(alloc, "frame", bytes.as_slice()),
        Request::Try(bytes) => with_bytes(alloc, "try", bytes.as_slice()),
        Request::Begin(height, _, bytes) => {
            let word = format!(in alloc; "begin {height}")?;
            with_bytes(alloc, word.as_str(), bytes.as_slice())
        }
        Request::Forget(name) => format!(in alloc; "forget {}", name[31]),
        Request::Get(key) => format!(in alloc; "get {}", key[31]),
        Request::List(key, count) => format!(in alloc; "list {} {count}", key[31]),
        Request::Programs => String::from_str(alloc, "programs"),
        Request::Last => String::from_str(alloc, "last"),
        Request::Dump => String::from_str(alloc, "dump"),
        Request::State => String::from_str(alloc, "state"),
        Request::Quit => String::from_str(alloc, "q"),
    }
}

/// What comes next in an input.
fn asked_text(alloc: Global, asked: &Asked) -> Result<String, AllocError> {
    match asked {
        Asked::Whole(request) => request_text(alloc, request),
        Asked::TooLong(RequestLine::Frame(length) | RequestLine::Try(length)) => {
            format!(in alloc; "long {length}")
        }
        Asked::TooLong(_) => String::from_str(alloc, "long"),
        Asked::Unkept(_) => String::from_str(alloc, "unkept"),
        Asked::Broken(RequestFault::BadLine) => String::from_str(alloc, "bad-line"),
        Asked::Broken(RequestFault::Cut) => String::from_str(alloc, "cut"),
        Asked::End => String::from_str(alloc, "end"),
    }
}

/// Whether nothing comes after this.
fn is_last(asked: &Asked) -> bool {
    matches!(asked, Asked::Broken(_) | Asked::End)
}

/// All that an input asks for.
fn input_text(alloc: Global, input: &[u8]) -> Result<String, Fail> {
    let mut rest = input;
    let mut text = String::new(alloc);
    for _ in 0..MOST_REQUESTS {
        let asked = next_request(alloc, &mut rest, FRAME_LIMIT)?;
        text.push_str(asked_text(alloc, &asked)?.as_str())?;
        if is_last(&asked) {
            break;
        }
        text.push_str(" ")?;
    }
    Ok(text)
}

/// Whether an input asks for this.
fn asks_for(alloc: Global, input: &str, wanted: &str) -> Result<bool, Fail> {
    Ok(input_text(alloc, input.as_bytes())?.as_str() == wanted)
}

#[test]
fn inputs_ask_for_requests(rt: HostRuntime) -> Result<(), Fail> {
    for (input, wanted) in INPUTS {
        let is_right = asks_for(rt.alloc(), input, wanted)?;
        assert_right(&rt, is_right, input);
    }
    Ok(())
}
