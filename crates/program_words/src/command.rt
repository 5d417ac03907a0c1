// The words, read by `clap`.
ghost use Rattle.std.specs.Prelude.{◌≡◌, ◌∷◌, map, IfOk, IfSome, IfNone, codes, string_bytes};
ghost use Rattle.clap.specs.Words.{app_of, found_of, rows_of};
ghost use Rattle.program_words.specs.Words.{AreWordsOf, AreOther, IsFound, program};
ghost use Rattle.program_words.specs.declared.mode.Mode.{Mode};

use crate::mode::{Mode, mode_said};
use clap::error::ErrorKind;
use clap::{Arg, ArgAction, ArgMatches, Command};
use frac_core::OutOfMemory;
use std::alloc::Global;

// The command: MODE, and NUMBER any number of times.
fn program<'a>(alloc: Global) -> Result<Command<'a>, OutOfMemory>
    ensures { IfOk result (λ command. app_of command ≡ program) }
{
    let mode = Arg::new(alloc, "MODE");
    let number = Arg::new(alloc, "NUMBER").action(ArgAction::Append);
    let command = Command::new(alloc, "layout").arg(mode)?.arg(number)?;
    Ok(command)
}

// The words behind the program's name.
fn named<'a>(alloc: Global, words: &'a [String]) -> Result<Vec<&'a str>, OutOfMemory>
    ensures { IfOk result (λ all. map (λ s. s.now) all.items ≡ codes "layout" ∷ map string_bytes words.now) }
{
    let mut all = Vec::new(alloc);
    all.push("layout")?;
    for word in words {
        all.push(word.as_str())?;
    }
    Ok(all)
}

// The mode that was found.
fn mode_found(matches: &ArgMatches<'_>) -> Option<Mode>
    ensures some { IfSome result (IsFound (rows_of (found_of matches.now))) }
    ensures none { IfNone result ((mode : Mode) → IsFound (rows_of (found_of matches.now)) mode → ⊥) }
{
    let name = matches.get_str("MODE")?;
    match matches.get_strs("NUMBER") {
        Some(numbers) => mode_said(name, numbers),
        None => mode_said(name, &[]),
    }
}

/// The mode that the program's words after its name ask for, and none for other words.
pub fn mode_of(alloc: Global, words: &[String]) -> Result<Option<Mode>, OutOfMemory>
    ensures some { IfOk result (λ found. IfSome found (AreWordsOf words.now)) }
    ensures none { IfOk result (λ found. IfNone found (AreOther words.now)) }
{
    let all = named(alloc, words)?;
    let command = program(alloc)?;
    match command.try_get_matches_from(&all) {
        Ok(matches) => Ok(mode_found(&matches)),
        Err(error) => match error.kind() {
            ErrorKind::OutOfMemory => Err(OutOfMemory),
            _ => Ok(None),
        },
    }
}
