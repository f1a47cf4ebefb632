//! The lines of a block file after its header.

ghost use Rattle.std.specs.Prelude.{◌≡◌, ◌<◌, [], ◌∷◌, IfOk};
ghost use Rattle.std.specs.String.{string_bytes};
ghost use Rattle.block_file.specs.Answer.{GivesValue};
ghost use Rattle.block_file.specs.Block.{block_value, call_value, program_path, stored_of, line_call, is_above, with_program_line, with_stored, with_call_line, with_fields, with_line, nothing_parsed};
ghost use Rattle.block_file.specs.Reader.{parsed};

use crate::block_text::{BlockText, CallLine, PROGRAM_LIMIT};
use crate::fault::Cause;
use crate::fields;
use rv_ledger::{CALL_LIMIT, GAS_LIMIT, INPUT_LIMIT, Key, Rules, Store, StoreBuilder, Value};
use std::alloc::{AllocError, Global};

/// What the lines so far say.
#[derive(Drop)]
pub struct Reader {
    /// What they say of the block, except for its storage, which is empty here.
    pub text: BlockText,
    /// What they say of its storage.
    pub stored: StoreBuilder,
    /// The key of the last `store` line.
    pub last: Option<Key>,
}

impl Reader {
    /// A reader that has read no line yet.
    pub fn new(alloc: Global, rules: Rules) -> Reader
        ensures { parsed result ≡ nothing_parsed rules }
    {
        Reader {
            text: BlockText {
                rules,
                programs: Vec::new(alloc),
                store: Store::new(alloc),
                calls: Vec::new(alloc),
            },
            stored: StoreBuilder::new(alloc),
            last: None,
        }
    }

    /// Takes the next line. Refused with what is wrong with it, or as Memory.
    pub fn read(&mut self, alloc: Global, line: &[u8]) -> Result<(), Cause>
        ensures { GivesValue (λ _. parsed self.new) result (with_line (parsed self.old) line.now) }
    {
        let Some((kind, rest)) = fields::cut_once(line, b' ') else {
            return Err(Cause::BadLine);
        };
        let Some((first, rest)) = fields::cut_once(rest, b' ') else {
            return Err(Cause::BadLine);
        };
        let Some((second, third)) = fields::cut_once(rest, b' ') else {
            return self.take_three(alloc, kind, first, rest);
        };
        match fields::cut_once(third, b' ') {
            Some(_) => Err(Cause::BadLine),
            None => self.take_four(alloc, kind, first, second, third),
        }
    }

    /// Takes a `program` or a `store` line.
    fn take_three(
        &mut self,
        alloc: Global,
        kind: &[u8],
        first: &[u8],
        second: &[u8],
    ) -> Result<(), Cause>
        ensures { GivesValue (λ _. parsed self.new) result (with_fields (parsed self.old) (kind.now ∷ first.now ∷ second.now ∷ [])) }
    {
        if kind.is_empty() || first.is_empty() || second.is_empty() {
            return Err(Cause::BadLine);
        }
        let has_call = !self.text.calls.is_empty();
        if kind == b"program".as_slice() && self.last.is_none() && !has_call {
            return self.program(alloc, first, second);
        }
        if kind == b"store".as_slice() && !has_call {
            return self.store(alloc, first, second);
        }
        Err(Cause::BadLine)
    }

    /// Takes a `call` line.
    fn take_four(
        &mut self,
        alloc: Global,
        kind: &[u8],
        first: &[u8],
        second: &[u8],
        third: &[u8],
    ) -> Result<(), Cause>
        ensures { GivesValue (λ _. parsed self.new) result (with_fields (parsed self.old) (kind.now ∷ first.now ∷ second.now ∷ third.now ∷ [])) }
    {
        if first.is_empty() || second.is_empty() || third.is_empty() {
            return Err(Cause::BadLine);
        }
        if kind != b"call".as_slice() {
            return Err(Cause::BadLine);
        }
        self.call(alloc, first, second, third)
    }

    /// Takes the fields of a `program` line.
    fn program(&mut self, alloc: Global, number: &[u8], path: &[u8]) -> Result<(), Cause>
        ensures { GivesValue (λ _. parsed self.new) result (with_program_line (parsed self.old) number.now path.now) }
    {
        let path = program_path(alloc, self.text.programs.len(), number, path)?;
        self.text.programs.push(path)?;
        Ok(())
    }

    /// Takes the fields of a `store` line.
    fn store(&mut self, alloc: Global, key: &[u8], value: &[u8]) -> Result<(), Cause>
        ensures { GivesValue (λ _. parsed self.new) result (with_stored (parsed self.old) key.now value.now) }
    {
        let (key, value) = stored_of(self.text.rules, self.last, key, value)?;
        self.stored.insert(key, &value)?;
        self.last = Some(key);
        Ok(())
    }

    /// Takes the fields of a `call` line.
    fn call(&mut self, alloc: Global, program: &[u8], gas: &[u8], input: &[u8]) -> Result<(), Cause>
        ensures { GivesValue (λ _. parsed self.new) result (with_call_line (parsed self.old) program.now gas.now input.now) }
    {
        let programs = self.text.programs.len();
        let calls = self.text.calls.len();
        let call = line_call(alloc, programs, calls, program, gas, input)?;
        self.text.calls.push(call)?;
        Ok(())
    }

    /// What the lines say of the block; refused if memory ran out.
    pub fn finish(self) -> Result<BlockText, AllocError>
        ensures { IfOk result (λ text. block_value text ≡ (parsed self).block) }
    {
        let Reader {
            mut text,
            stored,
            ..
        } = self;
        text.store = stored.finish()?;
        Ok(text)
    }
}

/// Whether a key is above the last one.
fn is_above(last: Option<Key>, key: &Key) -> bool
    ensures { result ≡ is_above last key.now }
{
    match last {
        Some(last) => last.cmp(key).is_lt(),
        None => true,
    }
}

/// The path of a `program` line that follows `count` others.
fn program_path(alloc: Global, count: usize, number: &[u8], path: &[u8]) -> Result<String, Cause>
    ensures path { GivesValue string_bytes result (program_path count number.now path.now) }
    ensures few { IfOk result (λ _. count < 64) }
{
    let path = fields::path(alloc, path)?;
    let number = fields::decimal(number).ok_or(Cause::BadNumber)?;
    if number != count as u64 {
        return Err(Cause::BadNumber);
    }
    if count >= PROGRAM_LIMIT {
        return Err(Cause::Limit);
    }
    Ok(path)
}

/// The key and the value of a `store` line. The `store` line before it has the key `last`, if any.
fn stored_of(
    rules: Rules,
    last: Option<Key>,
    key: &[u8],
    value: &[u8],
) -> Result<(Key, Value), Cause>
    ensures { GivesValue (λ entry. entry) result (stored_of rules last key.now value.now) }
{
    let key = fields::key(key)?;
    let value = fields::value(value)?;
    if !is_above(last, &key) {
        return Err(Cause::KeyOrder);
    }
    match value {
        Some(value) if value.bytes().len() <= rules.longest_value() => Ok((key, value)),
        _ => Err(Cause::Limit),
    }
}

/// The call of a `call` line that follows `programs` programs and `calls` calls.
fn line_call(
    alloc: Global,
    programs: usize,
    calls: usize,
    program: &[u8],
    gas: &[u8],
    input: &[u8],
) -> Result<CallLine, Cause>
    ensures line { GivesValue call_value result (line_call programs calls program.now gas.now input.now) }
    ensures limits { IfOk result (λ call. (call.program < programs) × (calls < 1024)) }
{
    let program = fields::decimal(program).ok_or(Cause::BadNumber)?;
    let gas = fields::decimal(gas).ok_or(Cause::BadNumber)?;
    let input = fields::hex_bytes(alloc, input)?;
    if program >= programs as u64 {
        return Err(Cause::UnknownProgram);
    }
    if calls >= CALL_LIMIT || gas == 0 || gas > u64::from(GAS_LIMIT) || input.len() > INPUT_LIMIT {
        return Err(Cause::Limit);
    }
    Ok(CallLine {
        program: program as usize,
        gas: gas as u32,
        input,
    })
}
