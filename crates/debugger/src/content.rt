//! What a key has in a call.

ghost use Rattle.std.specs.Prelude.{◌≡◌};
ghost use Rattle.std.specs.Option.{option_copied};
ghost use Rattle.debugger.specs.More.{content_with};

use rv_ledger::{Change, LentValue, StoredValue, Value, add};

/// What a READ of a key finds. `own` is the call's own change of the key, if any, and `stored` is what the storage has.
pub(crate) fn content_with(
    own: Option<&Change<StoredValue>>,
    stored: Option<&StoredValue>,
) -> Option<Value>
    ensures { result ≡ content_with (option_copied own.entry) (option_copied stored.entry) }
{
    match own {
        None => StoredValue::value_of(stored),
        Some(Change::Value(value)) => Some(value.value()),
        Some(Change::Gone) => None,
        Some(Change::Sum(amount)) => Some(add(LentValue::of_stored(stored), *amount)),
    }
}
