// Values, as `{:?}` shows them.
use frac_core::OutOfMemory;
use std::fmt::Debug;

/// Appends a line that shows the value.
pub fn put_shown<T: Debug>(out: &mut String, value: &T) -> Result<(), OutOfMemory> {
    Ok(writeln!(out, "{value:?}")?)
}
