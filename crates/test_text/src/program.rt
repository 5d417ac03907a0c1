// A program that answers its input.

use frac_core::OutOfMemory;
use std::alloc::Global;
use std::io;
use std::io::Write;
use std::process::ExitCode;

// Writes the text.
fn written(rt: &HostRuntime, text: &str) -> ExitCode {
    let mut sink = io::writer(rt);
    match write!(sink, "{text}") {
        Ok(()) => ExitCode::SUCCESS,
        Err(_) => ExitCode::from(4),
    }
}

// Writes what `printed` makes of the input.
fn answered<P>(rt: &HostRuntime, printed: P, input: &str) -> ExitCode
where
    P: Fn(Global, &str) -> Result<String, OutOfMemory>,
    requires { P.IsAlwaysCallable printed }
{
    match printed(rt.alloc(), input) {
        Ok(text) => written(rt, &text),
        Err(_) => ExitCode::from(5),
    }
}

/// Writes what `printed` makes of the standard input. The status is 3 where that is no text or can't be read,
/// 4 where the output can't be written, and 5 where memory is wanting.
pub fn print_answers<P>(rt: HostRuntime, printed: P) -> ExitCode
where
    P: Fn(Global, &str) -> Result<String, OutOfMemory>,
    requires { P.IsAlwaysCallable printed }
{
    match io::read_to_string(rt.alloc(), rt.reader()) {
        Ok(input) => answered(&rt, printed, &input),
        Err(_) => ExitCode::from(3),
    }
}
