// The script as a whole.
ghost use Rattle.std.specs.Prelude.{◌≡◌, ◌<◌, ◌++◌, ◌-◌, IfOk, OnErr, OnOk, string_bytes};
ghost use Rattle.make_script.specs.Script.{after, part_of, script};

use crate::part::Part;
use crate::texts::put_line;
use frac_core::OutOfMemory;

// Appends a part for so many views from a number on, and says at which state it ends.
fn put_part(
    text: &mut String,
    part: Part,
    from_view: u32,
    count: u32,
    state: u64,
) -> Result<u64, OutOfMemory>
    requires { 0 < from_view }
    ensures text { IfOk result (λ _.
        string_bytes text.new ≡ string_bytes text.old ++ part_of part count from_view state) }
    ensures state { IfOk result (λ end. end ≡ after part count state) }
{
    let begin = u64::from(from_view);
    let mut now = state;
    for i in begin..begin + u64::from(count) {
        put_line(text, part, i, now)?;
        now = part.state_after(now);
    }
    Ok(now)
}

// Appends the script.
fn put_script(text: &mut String, seed: u64, views: u32) -> Result<(), OutOfMemory>
    ensures { IfOk result (λ _. string_bytes text.new ≡ string_bytes text.old ++ script seed views) }
{
    let others = views.saturating_sub(1);
    text.push_str("window 1000 1000\n")?;
    put_part(text, Part::Views, 1, views, seed)?;
    let sized = put_part(text, Part::Sizes, 1, views, seed)?;
    let stacked = put_part(text, Part::Stacks, 2, others, sized)?;
    let widened = put_part(text, Part::Widths, 2, others, stacked)?;
    text.push_str("window 800 600\n")?;
    put_part(text, Part::Suggestions, 1, views, widened)?;
    text.push_str("undo\n")?;
    Ok(())
}

/// Appends the script for a seed and a number of views. Want of memory leaves what was there before.
pub fn make_script(seed: u64, views: u32, out: &mut Vec<u8>) -> Result<(), OutOfMemory>
    ensures ok { OnOk result (out.new.items ≡ out.old.items ++ script seed views) }
    ensures same { OnErr result (out.new.items ≡ out.old.items) }
{
    let mut text = String::new(*out.allocator());
    put_script(&mut text, seed, views)?;
    out.extend_from_slice(text.as_bytes())?;
    Ok(())
}
