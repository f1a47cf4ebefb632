//! Calls and jobs of small programs.

use elf32::{Image, load, write};
use rv_ledger::{Call, Job, Outcome, Store};
use rv_text::assemble;
use seq_exec::run_in_order;
use std::alloc::Global;
use std::fmt::Debug;
use std::sync::Arc;

/// The gas limit of each call.
const GAS: u32 = 1000;

/// TOUCH: it counts up a word of its data, and returns it.
pub const TOUCH: &str =
    "li t0,cell\nlw t1,0(t0)\naddi t1,t1,1\nsw t1,0(t0)\naddi a0,t0,0\naddi a1,x0,4\n\
    addi a7,x0,3\necall\n.data\ncell: .word 7\n";

/// LEN with a capacity of 63 bytes: it reads the key of its input.
pub const LEN: &str = "addi a1,sp,-64\naddi a2,x0,63\necall\naddi a7,x0,3\naddi a1,x0,0\necall\n";

/// COUNT: it counts up the number at the key of its input.
pub const COUNT: &str = "addi a1,sp,-64\naddi a2,x0,64\naddi s0,a0,0\necall\nlw t0,-64(sp)\n\
    addi t0,t0,1\nsw t0,-64(sp)\naddi a0,s0,0\naddi a2,x0,4\naddi a7,x0,1\necall\n\
    addi a7,x0,3\naddi a1,x0,0\necall\n";

/// ECHO: it returns its input.
pub const ECHO: &str = "addi a7,x0,3\necall\n";

/// PUT: it writes the byte after the key of its input at that key.
pub const PUT: &str = "addi a1,a0,32\naddi a2,x0,1\naddi a7,x0,1\necall\naddi a7,x0,3\n\
    addi a1,x0,0\necall\n";

/// GET: it returns the first byte of the value at the key of its input.
pub const GET: &str = "addi a1,sp,-64\naddi a2,x0,64\necall\naddi a0,sp,-64\naddi a1,x0,1\n\
    addi a7,x0,3\necall\n";

/// SEEN: it returns if the key of its input has a value, and reverts if not.
pub const SEEN: &str = "ecall\naddi a7,x0,3\naddi a1,x0,0\naddi t0,x0,-1\nbne a0,t0,8\n\
    addi a7,x0,4\necall\n";

/// COND: it writes an empty value at the second key of its input if the first has none.
pub const COND: &str = "addi s0,a0,32\necall\naddi t0,x0,-1\nbne a0,t0,16\naddi a0,s0,0\n\
    addi a7,x0,1\necall\naddi a7,x0,3\naddi a1,x0,0\necall\n";

/// It writes the numbers from 60 down to 1, each to a page of its own, and returns the sum of what it loads from there.
pub const TOUCH_MANY: &str = "li t0,0x30000\nli t1,60\nli t2,4096\n\
    store: sw t1,0(t0)\nadd t0,t0,t2\naddi t1,t1,-1\nbne t1,x0,store\n\
    li t0,0x30000\nli t1,60\n\
    load: lw t3,0(t0)\nadd t4,t4,t3\nadd t0,t0,t2\naddi t1,t1,-1\nbne t1,x0,load\n\
    sw t4,-4(sp)\naddi a0,sp,-4\naddi a1,x0,4\naddi a7,x0,3\necall\n";

/// A key of 32 bytes.
pub const KEY: &[u8] = &[0x28; 32];

/// Something that calls are made of was refused. It has no `Debug`, so that every error with `Debug` can convert to it.
#[derive(Drop)]
pub struct NotMade;

impl<E: Debug + Drop> From<E> for NotMade {
    fn from(_error: E) -> NotMade {
        NotMade
    }
}

/// The image of a source.
pub fn image_of(alloc: Global, source: &str) -> Result<Image, NotMade> {
    let file = write(alloc, &assemble(alloc, source)?)?;
    Ok(load(alloc, file.as_slice())?)
}

/// A call of a source.
pub fn assembled_call(alloc: Global, source: &str, input: &[u8]) -> Result<Call, NotMade> {
    let image = Arc::new(alloc, image_of(alloc, source)?)?;
    Ok(Call::new(image, GAS, input.to_vec(alloc)?)?)
}

/// A job of calls, each a source and its input.
pub fn job_of(alloc: Global, sources: &[(&str, &[u8])]) -> Result<Job, NotMade> {
    let mut calls = Vec::new(alloc);
    for (source, input) in sources {
        calls.push(assembled_call(alloc, source, input)?)?;
    }
    Ok(Job::new(calls, Store::new(alloc))?)
}

/// The outcome of a block of one call of a source.
pub fn outcome_of_source(alloc: Global, source: &str) -> Result<Outcome, NotMade> {
    let job = job_of(alloc, &[(source, KEY)])?;
    Ok(run_in_order(alloc, &job)?)
}
