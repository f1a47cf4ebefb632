//! Worked sources.

use crate::asserts::assert_right;
use rv_text::{assemble, disassemble};
use std::alloc::{AllocError, Global};
use std::process::Abort;
use std::test::Fail;

/// Whether a source has these text words and data bytes.
fn gives(alloc: Global, source: &str, text: &[u32], bytes: &[u8]) -> bool {
    match assemble(alloc, source) {
        Ok(program) => program.text() == text && program.data() == bytes,
        Err(_) => false,
    }
}

/// A source, its text words and its data bytes.
struct Source {
    name: &'static str,
    source: &'static str,
    text: &'static [u32],
    bytes: &'static [u8],
}

const SOURCES: &[Source] = &[
    Source {
        name: "echo_source",
        source: "addi a7,x0,3\necall\n",
        text: &[0x0030_0893, 0x0000_0073],
        bytes: &[],
    },
    Source {
        name: "four_lines",
        source: "li x1,buf\nloop: bne x1,x0,loop\n.data\nbuf: .word 7\n",
        text: &[0x0002_00b7, 0x0000_8093, 0x0000_9063],
        bytes: &[7, 0, 0, 0],
    },
    Source {
        name: "five_words and illegal_words",
        source: "addi x1,x0,5\nadd x3,x1,x2\nbeq x0,x0,-4\nsw x2,-4(x1)\nsrai x1,x1,31\n\
            .word 0x00000000\n.word 0x02009093\n",
        text: &[
            0x0050_0093,
            0x0020_81b3,
            0xfe00_0ee3,
            0xfe20_ae23,
            0x41f0_d093,
            0x0000_0000,
            0x0200_9093,
        ],
        bytes: &[],
    },
    Source {
        name: "load_immediate",
        source: "li x1,0x12345fff\nli x1,-1",
        text: &[0x1234_60b7, 0xfff0_8093, 0x0000_00b7, 0xfff0_8093],
        bytes: &[],
    },
    Source {
        name: "places in the data",
        source: "nop\nli x1,x\nli x1,y\nx: .data\n.byte 255\n.zero 2\ny: .word -2 # below 0\n.text",
        text: &[
            0x0000_0013,
            0x0001_00b7,
            0x0140_8093,
            0x0002_00b7,
            0x0030_8093,
        ],
        bytes: &[255, 0, 0, 0xfe, 255, 255, 255],
    },
    Source {
        name: "places in the text",
        source: "loop: nop\nj loop\njal ra,loop\nj next\nnext: .word 0x0",
        text: &[0x0000_0013, 0xffdf_f06f, 0xff9f_f0ef, 0x0040_006f, 0],
        bytes: &[],
    },
    Source {
        name: "no line",
        source: "",
        text: &[],
        bytes: &[],
    },
];

#[test]
fn worked_sources(rt: HostRuntime) {
    for row in SOURCES {
        let is_right = gives(rt.alloc(), row.source, row.text, row.bytes);
        assert_right(&rt, is_right, row.name);
    }
}

/// Words whose texts stand for them.
const WORDS: &[u32] = &[
    0x0050_0093,
    0x0020_81b3,
    0xfe00_0ee3,
    0x0000_0000,
    0x0200_9093,
    0x0ff0_000f,
];

/// Whether the text of a word stands for this word.
fn comes_back(alloc: Global, word: u32) -> Result<bool, AllocError> {
    let mut text = String::new(alloc);
    disassemble(alloc, word, &mut text)?;
    Ok(gives(alloc, text.as_str(), &[word], &[]))
}

#[test]
fn text_and_back(rt: HostRuntime) -> Result<(), Fail> {
    for word in WORDS {
        assert!(rt; comes_back(rt.alloc(), *word)?);
    }
    Ok(())
}

/// Whether the fault of a source prints this text.
fn is_printed(alloc: Global, source: &str, text: &str) -> Result<bool, AllocError> {
    Ok(match assemble(alloc, source) {
        Ok(_) => false,
        Err(fault) => format!(in alloc; "{fault}")?.as_str() == text,
    })
}

#[test]
fn fault_texts(rt: HostRuntime) -> Result<(), Fail> {
    assert!(rt; is_printed(rt.alloc(), "\nfoo", "2 UnknownMnemonic 1")?);
    Ok(())
}
