//! The calls of cmdline.

use crate::asserts::assert_right;
use cmdline::{Request, request_of};
use std::alloc::{AllocError, Global};
use std::process::Abort;

/// The words of a line, between single spaces.
fn words_of(alloc: Global, line: &str) -> Result<Vec<String>, AllocError> {
    let mut words = Vec::new(alloc);
    for word in line.split(' ') {
        words.push(String::from_str(alloc, word)?)?;
    }
    Ok(words)
}

/// The request of `seq`.
const SEQ: Request<'static> = Request::Seq { file: "a.block" };

/// The request of `asm`.
const ASM: Request<'static> = Request::Asm {
    file: "a.s",
    out: "a.elf",
};

/// The request of `chain` with a store; it keeps a digest.
const STORED: Request<'static> = Request::Chain {
    workers: None,
    frame_limit: None,
    frame_gas: None,
    digest: true,
    brief: false,
    store: Some("a.session"),
};

/// Lines, each with its request.
const LINES: &[(&str, Request<'static>)] = &[
    ("rvstm seq a.block", SEQ),
    ("rvstm seq -- a.block", SEQ),
    (
        "rvstm migrate a.block --out b.block",
        Request::Migrate {
            file: "a.block",
            out: "b.block",
        },
    ),
    ("rvstm asm a.s --out a.elf", ASM),
    ("rvstm asm --out=a.elf a.s", ASM),
    ("rvstm dis a.elf", Request::Dis { file: "a.elf" }),
    (
        "rvstm drive a.block --workers 1 --schedule b.schedule",
        Request::Drive {
            file: "a.block",
            workers: 1,
            schedule: "b.schedule",
            counts: false,
        },
    ),
    (
        "rvstm drive --schedule=b.schedule --workers=32 a.block",
        Request::Drive {
            file: "a.block",
            workers: 32,
            schedule: "b.schedule",
            counts: false,
        },
    ),
    (
        "rvstm drive --workers 007 a.block --schedule b.schedule",
        Request::Drive {
            file: "a.block",
            workers: 7,
            schedule: "b.schedule",
            counts: false,
        },
    ),
    (
        "rvstm drive --counts a.block --workers 2 --schedule b.schedule",
        Request::Drive {
            file: "a.block",
            workers: 2,
            schedule: "b.schedule",
            counts: true,
        },
    ),
    (
        "rvstm run a.block --workers 007",
        Request::Run {
            file: "a.block",
            workers: 7,
            counts: false,
        },
    ),
    (
        "rvstm run --workers=32 a.block",
        Request::Run {
            file: "a.block",
            workers: 32,
            counts: false,
        },
    ),
    (
        "rvstm debug a.block --call 0",
        Request::Debug {
            file: "a.block",
            call: 0,
            more: false,
        },
    ),
    (
        "rvstm debug --call=1023 a.block",
        Request::Debug {
            file: "a.block",
            call: 1023,
            more: false,
        },
    ),
    (
        "rvstm debug --more a.block --call 7",
        Request::Debug {
            file: "a.block",
            call: 7,
            more: true,
        },
    ),
    (
        "rvstm chain --workers 4 --frame-limit 0 --frame-gas 9999999999 --digest --brief",
        Request::Chain {
            workers: Some(4),
            frame_limit: Some(0),
            frame_gas: Some(9_999_999_999),
            digest: true,
            brief: true,
            store: None,
        },
    ),
    ("rvstm chain --store a.session", STORED),
    ("rvstm chain --store=a.session", STORED),
    ("rvstm chain --store a.session --digest", STORED),
    (
        "rvstm chain --brief --store=a.session --frame-limit 7",
        Request::Chain {
            workers: None,
            frame_limit: Some(7),
            frame_gas: None,
            digest: true,
            brief: true,
            store: Some("a.session"),
        },
    ),
];

/// Whether a line is this request.
fn is_request(alloc: Global, line: &str, asked: &Request<'_>) -> Result<bool, AllocError> {
    let words = words_of(alloc, line)?;
    Ok(match request_of(alloc, words.as_slice()) {
        Ok(request) => request == Some(*asked),
        Err(_) => false,
    })
}

#[test]
fn reads_lines(rt: HostRuntime) -> Result<(), AllocError> {
    for (line, asked) in LINES {
        let is_right = is_request(rt.alloc(), line, asked)?;
        assert_right(&rt, is_right, line);
    }
    Ok(())
}
