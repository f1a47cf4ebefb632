//! What the lines of a source lay down.

ghost use Rattle.std.specs.Prelude.{◌≡◌, ◌≤◌, map, vec_len};
ghost use Rattle.rv_text.specs.Fits.{bytes_of_items};
ghost use Rattle.rv_text.specs.Shown.{shown_item};

use crate::fault::AsmCause;
use crate::item::{Item, text_bytes};
use indexmap::IndexMap;
use rv_names::{Line, Section, Statement, read_line};
use rv_program::{DATA_LIMIT, DATA_START, TEXT_LIMIT, TEXT_START};
use std::alloc::Global;

/// What the lines so far lay down.
#[derive(Drop)]
pub struct Layout<'a> {
    /// The section in force.
    pub section: Section,
    /// The statements of text, in order.
    pub items: Vec<Item<'a>>,
    /// How many bytes they take.
    pub text_size: usize,
    /// The bytes of data.
    pub data_bytes: Vec<u8>,
    /// The labels in the order of their definitions, each with its place.
    pub labels: IndexMap<&'a [u8], u32>,
    ghost counted: { text_size ≡ bytes_of_items (map shown_item items.items) },
    ghost text_within: { text_size ≤ 65536 },
    ghost data_within: { vec_len data_bytes ≤ 61440 },
}

impl<'a> Layout<'a> {
    ghost use Rattle.std.specs.Prelude.{◌≡◌, replicate};
    ghost use Rattle.std.specs.Option.{option_map};
    ghost use Rattle.rv_names.specs.Shown.{line_map};
    ghost use Rattle.rv_text.specs.Answer.{Answers};
    ghost use Rattle.rv_text.specs.Assembly.{empty_layout, next_place, data_bytes_of, with_label, with_text, with_data, with_statement, with_source_line};
    ghost use Rattle.rv_text.specs.Layout.{source_layout_of};

    /// The empty layout: no line is laid down, and text is in force.
    pub fn new(alloc: Global) -> Layout<'a>
        ensures { source_layout_of result ≡ empty_layout }
    {
        Layout {
            section: Section::Text,
            items: Vec::new(alloc),
            text_size: 0,
            data_bytes: Vec::new(alloc),
            labels: IndexMap::new(alloc),
        }
    }

    /// Lays down the next line, which has this number. Refused with the least cause of `read_line`, otherwise with
    /// DuplicateLabel, otherwise with TooLarge, and with Memory if memory ran out.
    #[tactic(auto, unfolding(crate::specs::Assembly::with_source_line))]
    pub fn read(&mut self, number: usize, text: &'a [u8]) -> Result<(), AsmCause>
        ensures { Answers (λ _. source_layout_of self.new) result (with_source_line number text.now (source_layout_of self.old)) }
    {
        let line = read_line(self.section, text)?;
        self.define(line.label)?;
        self.add_statement(number, line)
    }

    /// The place of the next byte of the section in force.
    fn place(&self) -> u32
        ensures { result ≡ next_place self.now.section (source_layout_of self.now) }
    {
        match self.section {
            Section::Text => TEXT_START + self.text_size as u32,
            Section::Data => DATA_START + self.data_bytes.len() as u32,
        }
    }

    /// Defines a line's label, if it has one; DuplicateLabel if an earlier line defines it.
    #[tactic(auto, unfolding(crate::specs::Assembly::with_label))]
    fn define(&mut self, label: Option<&'a [u8]>) -> Result<(), AsmCause>
        ensures { Answers (λ _. source_layout_of self.new) result (with_label (option_map (λ name. name.now) label.entry) (source_layout_of self.old)) }
    {
        let Some(name) = label else {
            return Ok(());
        };
        let place = self.place();
        if self.labels.insert(name, place)?.is_some() {
            return Err(AsmCause::DuplicateLabel);
        }
        Ok(())
    }

    /// Lays down a line's statement in the section in force.
    fn add_statement(&mut self, number: usize, line: Line<&'a [u8]>) -> Result<(), AsmCause>
        ensures { Answers (λ _. source_layout_of self.new) result (with_statement number (line_map (λ name. name.now) line.entry) line.entry.statement (source_layout_of self.old)) }
    {
        match line.statement {
            Statement::Empty => Ok(()),
            Statement::Enter(section) => {
                self.section = section;
                Ok(())
            }
            _ => match self.section {
                Section::Text => self.add_item(number, line),
                Section::Data => self.add_data(line.statement),
            },
        }
    }

    /// Lays down a statement of text; TooLarge if it does not fit.
    #[tactic(auto, unfolding(crate::specs::Assembly::with_text))]
    fn add_item(&mut self, number: usize, line: Line<&'a [u8]>) -> Result<(), AsmCause>
        ensures { Answers (λ _. source_layout_of self.new) result (with_text number (line_map (λ name. name.now) line.entry) (source_layout_of self.old)) }
    {
        let count = text_bytes(line.statement);
        if TEXT_LIMIT < self.text_size + count {
            return Err(AsmCause::TooLarge);
        }
        self.items.push(Item {
            line: number,
            address: TEXT_START + self.text_size as u32,
            statement: line.statement,
            target: line.target,
        })?;
        self.text_size += count;
        Ok(())
    }

    /// Lays down a statement of data.
    fn add_data(&mut self, statement: Statement) -> Result<(), AsmCause>
        ensures { Answers (λ _. source_layout_of self.new) result (with_data (data_bytes_of statement) (source_layout_of self.old)) }
    {
        match statement {
            Statement::WordValue(word) => self.add_bytes(word.to_le_bytes().as_slice()),
            Statement::ByteValue(byte) => self.add_bytes([byte].as_slice()),
            Statement::ZeroBytes(count) => self.add_zeros(count),
            _ => self.add_bytes([].as_slice()),
        }
    }

    /// Lays down bytes of data; TooLarge if they do not fit.
    #[tactic(auto, unfolding(crate::specs::Assembly::with_data))]
    fn add_bytes(&mut self, bytes: &[u8]) -> Result<(), AsmCause>
        ensures { Answers (λ _. source_layout_of self.new) result (with_data bytes.now (source_layout_of self.old)) }
    {
        if DATA_LIMIT < self.data_bytes.len() + bytes.len() {
            return Err(AsmCause::TooLarge);
        }
        self.data_bytes.extend_from_slice(bytes)?;
        Ok(())
    }

    /// Lays down zeros of data; TooLarge if they do not fit.
    #[tactic(auto, unfolding(crate::specs::Assembly::with_data))]
    fn add_zeros(&mut self, count: u32) -> Result<(), AsmCause>
        ensures { Answers (λ _. source_layout_of self.new) result (with_data (replicate count 0) (source_layout_of self.old)) }
    {
        let len = self.data_bytes.len() + count as usize;
        if DATA_LIMIT < len {
            return Err(AsmCause::TooLarge);
        }
        self.data_bytes.resize(len, 0)?;
        Ok(())
    }
}
