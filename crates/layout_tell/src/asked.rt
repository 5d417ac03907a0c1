// The program's arguments.
use frac_core::OutOfMemory;
use std::env::Env;
use std::{env, io};

/// What the arguments ask for.
#[derive(Clone, Copy)]
pub enum Asked {
    /// To explain each refused line to people.
    People,
    /// To write each finding as a JSON object on a line.
    Json,
    /// To print the problem of the line of this number, counted from 1; 0 until the number is read.
    Problem(usize),
    /// Anything else.
    Other,
}

// What is asked for after one more argument.
fn asked_by(asked: Asked, word: &str) -> Asked {
    match (asked, word) {
        (Asked::People, "--json") => Asked::Json,
        (Asked::People, "problem") => Asked::Problem(0),
        (Asked::Problem(0), number) => match number.parse::<usize>() {
            Ok(number) if number > 0 => Asked::Problem(number),
            _ => Asked::Other,
        },
        _ => Asked::Other,
    }
}

/// What the arguments ask for. Arguments that aren't UTF-8 ask for something else.
pub fn asked_for(rt: &(impl Env + AllocGlobal)) -> Result<Asked, OutOfMemory> {
    let mut asked = Asked::People;
    match env::args(rt) {
        Ok(args) => {
            for word in args.skip(1) {
                asked = asked_by(asked, &word);
            }
        }
        Err(error) if error.kind() == io::ErrorKind::OutOfMemory => return Err(OutOfMemory),
        Err(_) => asked = Asked::Other,
    }
    match asked {
        Asked::Problem(0) => Ok(Asked::Other),
        asked => Ok(asked),
    }
}
