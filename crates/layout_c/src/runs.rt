// A whole run, of a script in memory.
ghost use Rattle.std.specs.Prelude.{◌≡◌, ◌≤◌, true, length, take, IfOk};
ghost use Rattle.layout_c.specs.Runs.{IsFaultless, IsRunIn};

use edge_io::{MemorySink, MemorySource};
use frac_core::OutOfMemory;
use layout_cli::{Status, run_script};
use std::alloc::Global;

/// Copies elements that there is room for, and says how many they are.
pub(crate) fn put_front<T: Copy>(these: &[T], out: &mut [T]) -> usize
    requires { length these.now ≤ length out.old }
    ensures within { result ≤ length out.new }
    ensures used { result ≡ length these.now }
    ensures put { take result out.new ≡ these.now }
{
    let used = these.len();
    out[..used].copy_from_slice(these);
    used
}

// Whether a run in memory may end so, with so many bytes written. Below its room a sink in memory fails only
// where memory is wanting, and its source fails at no pull.
fn is_faultless(status: &Status, text: &[u8], room: usize) -> bool
    ensures { result ≡ true → IsFaultless room text.now status.now }
{
    match status {
        Status::ReadFault => false,
        Status::WriteFault => text.len() == room,
        _ => true,
    }
}

/// Answers a whole script in memory: how that ended, and how many bytes of replies stand in `out`.
pub(crate) fn run_here(
    alloc: Global,
    script: &[u8],
    out: &mut [u8],
) -> Result<(Status, usize), OutOfMemory>
    ensures within { IfOk result (λ r. r.1 ≤ length out.new) }
    ensures ended { IfOk result (λ r. IsRunIn script.now (length out.old) (take r.1 out.new) r.0) }
{
    let bytes = Vec::from_slice(alloc, script)?;
    let mut source = MemorySource::new(bytes, Vec::new(alloc), Vec::new(alloc));
    let mut sink = MemorySink::new(alloc, out.len(), Vec::new(alloc))?;
    let status = run_script(alloc, &mut source, &mut sink);
    let text = sink.bytes();
    if out.len() < text.len() {
        return Ok((Status::WriteFault, 0));
    }
    if !is_faultless(&status, text, out.len()) {
        return Err(OutOfMemory);
    }
    Ok((status, put_front(text, out)))
}
