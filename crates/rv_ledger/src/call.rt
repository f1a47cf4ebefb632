//! A call of a contract.

ghost use Rattle.std.specs.Prelude.{◌≡◌};

use crate::rules::Rules;
use elf32::Image;
use smallvec::SmallVec;
use std::alloc::{AllocError, Global};
use std::marker::Model;
use std::sync::Arc;
use thiserror::Error;

/// The greatest gas limit of a call.
pub const GAS_LIMIT: u32 = 10_000_000;

/// The greatest length of an input, in bytes.
pub const INPUT_LIMIT: usize = 4096;

/// The greatest length of an input that is kept in place, in bytes: two keys.
const SHORT_INPUT: usize = 64;

/// Why a call is refused.
#[derive(Clone, Copy, Debug, PartialEq, Eq, Error)]
pub enum CallFault {
    /// The gas limit is not 1 to 10,000,000.
    #[error("BadGas 1")]
    BadGas = 1,
    /// The input is longer than 4,096 bytes.
    #[error("InputTooLong 2")]
    InputTooLong = 2,
}

/// A call: the rules that it runs under, a program, a gas limit of 1 to 10,000,000 and an input of at most
/// 4,096 bytes. A copy of a call with a short input takes no memory.
#[derive(Drop)]
pub struct Call {
    rules: Rules,
    image: Arc<Image>,
    gas: u32,
    input: SmallVec<u8, SHORT_INPUT>,
}

impl Model for Call {
    ghost use Rattle.std.specs.Arc.{arc_value};
    ghost use Rattle.rv_ledger.specs.Call.{Invocation, IsInLimits};

    ghost Value = { Invocation };

    ghost view = { λ c. record { rules = c.rules; image = arc_value c.image; gas = c.gas; input = c.input.items } };

    ghost invariant = { λ c. IsInLimits c.gas c.input.items };
}

impl Call {
    ghost use Rattle.std.specs.Prelude.{◌≡◌, IfOk};
    ghost use Rattle.std.specs.Arc.{arc_value};
    ghost use Rattle.rv_ledger.specs.Call.{call_of, IsInLimits};
    ghost use Rattle.rv_ledger.specs.declared.rules.Rules.TheVariants.{One};

    /// The call of a program under rules one, with a gas limit and an input. Refused like `under`.
    pub fn new(image: Arc<Image>, gas: u32, input: Vec<u8>) -> Result<Call, CallFault>
        ensures { result ≡ call_of One (arc_value image) gas input.items }
    {
        Call::under(Rules::One, image, gas, input)
    }

    /// The call of a program under some rules, with a gas limit and an input. Refused as BadGas if the gas limit is not 1
    /// to 10,000,000; otherwise as InputTooLong if the input is longer than 4,096 bytes.
    pub fn under(
        rules: Rules,
        image: Arc<Image>,
        gas: u32,
        input: Vec<u8>,
    ) -> Result<Call, CallFault>
        ensures { result ≡ call_of rules (arc_value image) gas input.items }
    {
        if gas == 0 || gas > GAS_LIMIT {
            return Err(CallFault::BadGas);
        }
        if input.len() > INPUT_LIMIT {
            return Err(CallFault::InputTooLong);
        }
        Ok(Call {
            rules,
            image,
            gas,
            input: stored_input(input),
        })
    }

    /// The rules that it runs under.
    pub fn rules(&self) -> Rules
        ensures { result ≡ self.now.rules }
    {
        self.rules
    }

    /// The loaded program that the call runs.
    pub fn image(&self) -> &Image
        ensures { result.now ≡ self.now.image }
    {
        &self.image
    }

    /// The gas limit, 1 to 10,000,000.
    pub fn gas(&self) -> u32
        ensures value { result ≡ self.now.gas }
        ensures limits { IsInLimits self.now.gas self.now.input }
    {
        self.gas
    }

    /// The input, of at most 4,096 bytes.
    pub fn input(&self) -> &[u8]
        ensures value { result.now ≡ self.now.input }
        ensures limits { IsInLimits self.now.gas self.now.input }
    {
        self.input.as_slice()
    }

    /// An equal call; refused if memory ran out.
    pub fn copy(&self) -> Result<Call, AllocError>
        ensures { IfOk result (λ c. c ≡ self.now) }
    {
        let input = SmallVec::from_slice(*self.input.allocator(), self.input())?;
        Ok(Call {
            rules: self.rules,
            image: Arc::try_clone(&self.image)?,
            gas: self.gas,
            input,
        })
    }
}

/// The bytes of an input as a call keeps them: a short one in place. Takes no memory.
fn stored_input(input: Vec<u8>) -> SmallVec<u8, SHORT_INPUT>
    ensures { result.items ≡ input.items }
{
    if input.len() <= SHORT_INPUT {
        if let Ok(short) = SmallVec::from_slice(*input.allocator(), input.as_slice()) {
            return short;
        }
    }
    SmallVec::from_vec(input)
}
