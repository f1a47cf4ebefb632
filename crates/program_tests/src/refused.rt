//! Tests of calls for which memory, or a thread, is refused. The clauses of a call say what it must leave if it is refused.
//!
//! The tests of `exhausted` take all addresses and the rest of the heap from their process. A thread must be refused as Spawn,
//! the growths of a worker, of the other one and of both as Memory, and the growth of a chain before its first block. An executor
//! that was refused must run another block once the memory is given back. Other calls get more and more memory, until they are
//! not refused. Each is refused as Memory at first, and returns the right answer in the end.
//!
//! `rvstm-developers growths` runs the tests of `second_tries` again and again: their first request for memory fails, then their
//! second, and so on. A call whose request fails is refused as Memory, and `run_block` as Memory or as Spawn. The call is made
//! once more, and must then return the right result. Without that command no call is refused.

mod exhausted;
mod images;
mod limits;
mod rows;
mod second_tries;
mod taking;
