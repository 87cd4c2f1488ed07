// Which values a store may keep: a switch ignores the least and the greatest number of 16 bits.
ghost use Rattle.std.specs.Prelude.{◌≡◌};
ghost use Rattle.store.specs.Meaning.{forbidden, value_answer};

use fault::{Fault, StoreFault};

const LEAST: i16 = -32_767;

const GREATEST: i16 = 32_766;

/// Whether a value is forbidden: it is neither kept by a store nor taken by a switch. Those from −32,767 to 32,766 are lawful.
pub fn is_forbidden(value: i16) -> bool
    ensures { result ≡ forbidden value }
{
    !(LEAST..=GREATEST).contains(&value)
}

/// Refuses a forbidden value (12, at place 0), and no other.
pub fn check_value(value: i16) -> Result<(), Fault>
    ensures { result ≡ value_answer value }
{
    if is_forbidden(value) {
        return Err(Fault::Store(StoreFault::ForbiddenValue, 0));
    }
    Ok(())
}
