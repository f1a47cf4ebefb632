//! What a call does to a key.

ghost use Rattle.std.specs.Prelude.{◌≡◌};
ghost use Rattle.rv_ledger.specs.Change.{add, change_copied, number_in, wrapping_sum};
ghost use Rattle.rv_ledger.specs.Lent.{lent_change, lent_content};

use crate::inline_bytes::Value;
use crate::lent_value::LentValue;

/// What a call does to a key, with its value kept as a `V`.
#[derive(Clone, Debug, Drop)]
pub enum Change<V> {
    /// The key gets this value.
    Value(V),
    /// The key is removed.
    Gone,
    /// This amount is added to the key's number, modulo 2^64. The key then has a value of eight bytes.
    Sum(u64),
}

impl<V> Change<V> {
    /// The same change, which lends its value.
    pub fn as_ref(&self) -> Change<&V>
        ensures { change_copied result ≡ self.now }
    {
        match self {
            Change::Value(value) => Change::Value(value),
            Change::Gone => Change::Gone,
            Change::Sum(amount) => Change::Sum(*amount),
        }
    }
}

/// The same change with its value lent.
pub fn lend_change(change: Change<&Value>) -> Change<LentValue<'_>>
    ensures { lent_change result ≡ change_copied change.entry }
{
    match change {
        Change::Value(value) => Change::Value(value.lend()),
        Change::Gone => Change::Gone,
        Change::Sum(amount) => Change::Sum(amount),
    }
}

/// The sum of two amounts, modulo 2^64.
pub fn wrapping_sum(left: u64, right: u64) -> u64
    ensures { result ≡ wrapping_sum left right }
{
    left.wrapping_add(right)
}

/// The number in what a key has: that of a value of exactly eight bytes, the least first. Any other value counts as 0,
/// and so does absence.
#[tactic(auto, unfolding(crate::specs::Change::number_in))]
fn number_in(content: Option<LentValue>) -> u64
    ensures { result ≡ number_in (lent_content content.entry) }
{
    let Some(value) = content else {
        return 0;
    };
    let bytes = value.bytes();
    match bytes.first_chunk::<8>() {
        Some(number) if bytes.len() == 8 => u64::from_le_bytes(*number),
        _ => 0,
    }
}

/// The value of eight bytes that a key has after an amount is added to its number, modulo 2^64. Takes no
/// memory.
#[tactic(auto, unfolding(crate::specs::Change::add))]
pub fn add(content: Option<LentValue>, amount: u64) -> Value
    ensures { result ≡ add (lent_content content.entry) amount }
{
    let bytes = wrapping_sum(number_in(content), amount).to_le_bytes();
    match Value::of(&bytes) {
        Some(value) => value,
        None => unreachable!(),
    }
}
