// The arguments of the programs (`docs/PROGRAMS.md`, "Arguments"): options, `--`, and files, of which `-` is standard input. Each is read
// anew from the system where it is needed, so that nothing has to hold it.
#![tactic(auto)]

use std::rt::Env;

// What an argument is. `Ends` is `--`; `Input` is `-`.
#[derive(Clone, Copy, PartialEq, Eq)]
pub enum Argument {
    Option,
    Ends,
    Input,
    File,
}

// What a program ends with at once: a text that an option asks for, or that argument i is an option which it does not have.
#[derive(Clone, Copy)]
pub enum Ending {
    Help,
    Version,
    Unknown(usize),
}

// What the arguments ask for: what the program ends with, whether its own option is given, and whether a file is named.
#[derive(Clone, Copy)]
pub struct Asked {
    pub ending: Option<Ending>,
    pub own: bool,
    pub files: bool,
}

// What an argument of these bytes is, before `--`.
fn kind_of(bytes: &[u8]) -> Argument {
    match bytes {
        b"-" => Argument::Input,
        b"--" => Argument::Ends,
        [b'-', ..] => Argument::Option,
        _ => Argument::File,
    }
}

// What argument i is; `files`, which one test reads, says that a `--` stands before it. One that is too long is a file.
pub fn kind(rt: &impl Env, i: usize, files: bool) -> Argument {
    if files {
        return Argument::File;
    }
    let mut bytes = [0u8; streams::ARGUMENT];
    match streams::argument(rt, i, &mut bytes) {
        Ok(length) => kind_of(&bytes[..length]),
        Err(_) => Argument::File,
    }
}

impl Asked {
    // With the option of these bytes, which is argument i. `own` is the option that this program has beside those of all.
    fn with_option(self, bytes: &[u8], own: &[u8], i: usize) -> Asked {
        let mut asked = self;
        match bytes {
            b"--help" => asked.ending = Some(Ending::Help),
            b"--version" => asked.ending = Some(Ending::Version),
            _ if bytes == own => asked.own = true,
            _ => asked.ending = Some(Ending::Unknown(i)),
        }
        asked
    }

    // With argument i, before `--`.
    fn with_argument(self, rt: &impl Env, own: &[u8], i: usize) -> Asked {
        let mut bytes = [0u8; streams::ARGUMENT];
        let length = streams::argument_or_nothing(rt, i, &mut bytes);
        match kind(rt, i, false) {
            Argument::Option => self.with_option(&bytes[..length], own, i),
            Argument::Ends => self,
            _ => Asked {
                files: true,
                ..self
            },
        }
    }
}

// What the arguments ask for, from left to right, up to what the program ends with or to `--`.
pub fn read(rt: &impl Env, own: &[u8]) -> Asked {
    let mut asked = Asked {
        ending: None,
        own: false,
        files: false,
    };
    let count = streams::argument_count(rt);
    // The arguments before i are taken; none of them is `--`, and none ends the program.
    for i in 1..count {
        if kind(rt, i, false) == Argument::Ends {
            asked.files = asked.files || i + 1 < count;
            return asked;
        }
        asked = asked.with_argument(rt, own, i);
        if asked.ending.is_some() {
            return asked;
        }
    }
    asked
}
