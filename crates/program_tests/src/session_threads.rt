//! Sessions whose calls run by threads: whatever their number, what is printed is what running them in order prints, also if
//! the steps of a run by threads reach their limit.

use crate::session_inputs::{printed_by, session_over};
use engines::{ByThreads, file_of_source};
use session_turns::{InOrder, Settings};
use std::alloc::Global;
use std::process::Abort;
use std::sync::Wait;
use std::test::Fail;
use std::thread::Threads;

/// Works as many rounds as the word after the key in its input says, and then counts the key up.
const WORK: &str = "addi s0,a0,0\nlw t0,32(a0)\nround: addi t0,t0,-1\nbne t0,x0,round\n\
    sw x0,-8(sp)\naddi a1,sp,-8\naddi a2,x0,4\necall\n\
    lw t1,-8(sp)\naddi t1,t1,1\nsw t1,-8(sp)\n\
    addi a0,s0,0\naddi a1,sp,-8\naddi a2,x0,4\naddi a7,x0,1\necall\n\
    addi a1,x0,0\naddi a7,x0,3\necall\n";

/// The settings of a session that keeps a digest.
const SETTINGS: Settings = Settings {
    frame_limit: 67_108_864,
    frame_gas: None,
    keeps_digest: true,
    is_brief: false,
};

/// How many calls a frame has.
const CALLS: u32 = 24;

/// How many keys they count up in turn.
const KEYS: u32 = 8;

/// Numbers of workers, each with how many threads run the calls after the first ones of a frame. One thread does not pay. A run
/// by 33 is refused, and then the calls run in order.
const WORKERS: &[(usize, usize)] = &[(1, 0), (4, 4), (32, 32), (33, 0)];

/// A session of two frames of calls of 12,000 rounds, what they leave, and the counts of the session.
fn working_session(alloc: Global) -> Result<Vec<u8>, Fail> {
    let mut frame = String::new(alloc);
    for call in 0..CALLS {
        let key = call % KEYS;
        let line = format!(in alloc; "call 0 100000 {key:064x}e02e0000\n")?;
        frame.push_str(line.as_str())?;
    }
    let file = file_of_source(alloc, &mut WORK.as_bytes())?;
    let mut input = session_over(alloc, file.as_slice(), &[frame.as_str(), frame.as_str()])?;
    input.extend_from_slice(b"state\ndump\n")?;
    Ok(input)
}

/// Whether a session with this many workers prints a text, and its last run by threads had this many threads.
fn is_printed<R: Threads + Wait + Sync>(
    rt: &R,
    alloc: Global,
    input: &[u8],
    wanted: &[u8],
    workers: usize,
    threads: usize,
) -> Result<bool, Fail> {
    let mut runner = ByThreads::new(rt, alloc, workers);
    let text = printed_by(alloc, &mut runner, SETTINGS, input)?;
    Ok(text.as_slice() == wanted && runner.executor.shares().len() == threads)
}

/// The last line of a dump after both frames: each of 24 calls counts up one of eight keys.
const LAST: &[u8] =
    b"store 0000000000000000000000000000000000000000000000000000000000000007 06000000\n";

#[test]
fn a_session_by_threads(rt: HostRuntime) -> Result<(), Fail> {
    let input = working_session(rt.alloc())?;
    let input = input.as_slice();
    let wanted = printed_by(rt.alloc(), &mut InOrder, SETTINGS, input)?;
    let wanted = wanted.as_slice();
    assert!(rt; wanted.ends_with(LAST));
    for (workers, threads) in WORKERS {
        assert!(rt; is_printed(&rt, rt.alloc(), input, wanted, *workers, *threads)?);
    }
    Ok(())
}

/// Works as many rounds as the word after the key in its input says, and then reads the key as often as the next word says.
const READ: &str = "addi s0,a0,0\nlw t0,32(a0)\nround: addi t0,t0,-1\nbne t0,x0,round\n\
    lw s1,36(s0)\nread: addi a0,s0,0\naddi a1,sp,-64\naddi a2,x0,64\naddi a7,x0,0\necall\n\
    addi s1,s1,-1\nbne s1,x0,read\n\
    addi a1,x0,0\naddi a7,x0,3\necall\n";

/// A call of 12,000 rounds that reads once, and one of one round that reads 400 times.
const WORKS_AND_READS: (&str, &str) = ("e02e000001000000", "0100000090010000");

/// How many calls of each kind there are: the first ones show that threads pay.
const OF_EACH: usize = 40;

/// A session of a frame of calls that work, and of a frame of calls that work and then of calls that read.
fn reading_session(alloc: Global) -> Result<Vec<u8>, Fail> {
    let (works, reads) = WORKS_AND_READS;
    let mut working = String::new(alloc);
    let mut reading = String::new(alloc);
    for call in 0..OF_EACH {
        let line = format!(in alloc; "call 0 100000 {call:064x}{works}\n")?;
        working.push_str(line.as_str())?;
    }
    for call in 0..OF_EACH {
        let line = format!(in alloc; "call 0 100000 {call:064x}{reads}\n")?;
        reading.push_str(line.as_str())?;
    }
    let mut both = String::new(alloc);
    both.push_str(working.as_str())?;
    both.push_str(reading.as_str())?;
    let file = file_of_source(alloc, &mut READ.as_bytes())?;
    Ok(session_over(alloc, file.as_slice(), &[working.as_str(), both.as_str()])?)
}

#[test]
fn calls_that_read_after_calls_that_work(rt: HostRuntime) -> Result<(), Fail> {
    let input = reading_session(rt.alloc())?;
    let input = input.as_slice();
    let wanted = printed_by(rt.alloc(), &mut InOrder, SETTINGS, input)?;
    // The threads of the last batch returned no shares: their run was refused.
    assert!(rt; is_printed(&rt, rt.alloc(), input, wanted.as_slice(), 4, 0)?);
    Ok(())
}
