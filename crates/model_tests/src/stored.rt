//! What was stored in fields, for the tests of graphs.

ghost use Rattle.std.specs.Prelude.{◌≡◌, ◌⊎◌, ◌↔◌, true, All, Contains};
ghost use Rattle.block_store.specs.declared.Value.TheVariants.{Nil};

use block_store::Value;

/// Whether it was stored in field `i` of the object that a value refers to.
fn is_of(stored: &(Value, u64, Value), object: Value, i: u64) -> bool
    ensures { (result ≡ true) ↔ (stored.now.0 ≡ object) × (stored.now.1 ≡ i) }
{
    stored.0 == object && stored.1 == i
}

/// What was last stored in field `i` of the object that a value refers to, by a list of all that
/// was stored: the object, the field, and the value.
pub fn last_stored(stored: &[(Value, u64, Value)], object: Value, i: u64) -> Value
    ensures stored { (result ≡ Nil) ⊎ Contains stored.now (object, i, result) }
    ensures some { All (λ s. s.0 ≡ object → s.1 ≡ i → Contains stored.now (object, i, result))
        stored.now }
{
    let mut last = Value::Nil;
    for entry in stored {
        if is_of(entry, object, i) {
            last = entry.2;
        }
    }
    last
}
