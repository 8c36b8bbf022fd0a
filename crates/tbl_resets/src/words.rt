// The words of the command line.
use std::alloc::{AllocError, Global};
use std::env;
use std::io::ErrorKind;
use std::rt::Env;

/// What the command line says.
#[derive(Drop)]
pub(crate) struct CommandLine {
    /// The name of the store file that preserved memory begins with a copy of; none if it begins empty.
    pub(crate) store: Option<String>,
    pub(crate) words: Words,
}

impl CommandLine {
    /// Words that name no store file.
    fn plain(words: Words) -> CommandLine {
        CommandLine { store: None, words }
    }
}

/// What is asked for.
#[derive(Clone, Copy)]
pub(crate) enum Words {
    Help,
    /// To try the resets: inside long writes each number of bytes that this one divides.
    Try { every: u32 },
    /// To let the first of two banks die in each write.
    Mirror,
    /// Nothing that is known.
    Unknown,
    /// Memory ran out.
    Memory,
}

/// What a word after `--every` asks for.
fn try_every(word: &str) -> Words {
    match word.parse::<u32>() {
        Ok(every) if every > 0 => Words::Try { every },
        _ => Words::Unknown,
    }
}

/// What words ask for that name no store file.
fn read_words(words: &[String]) -> Words {
    match words {
        [] => Words::Try { every: 1 },
        [word] if word.as_str() == "--help" => Words::Help,
        [word] if word.as_str() == "--mirror" => Words::Mirror,
        [word, number] if word.as_str() == "--every" => try_every(number.as_str()),
        _ => Words::Unknown,
    }
}

/// What the words after the program's name say: `--store FILE` comes first.
fn read_line(alloc: Global, words: &[String]) -> Result<CommandLine, AllocError> {
    match words {
        [option, name, others @ ..] if option.as_str() == "--store" => Ok(CommandLine {
            store: Some(name.as_str().to_string(alloc)?),
            words: read_words(others),
        }),
        _ => Ok(CommandLine::plain(read_words(words))),
    }
}

/// What the command line says.
pub(crate) fn command_line<R: Env + AllocGlobal>(rt: &R) -> CommandLine {
    let given = match env::args(rt) {
        Ok(given) => given,
        Err(error) if error.kind() == ErrorKind::OutOfMemory => {
            return CommandLine::plain(Words::Memory);
        }
        Err(_) => return CommandLine::plain(Words::Unknown),
    };
    let words: Result<Vec<String>, AllocError> = given.skip(1).collect(rt.alloc());
    let line = match words {
        Ok(words) => read_line(rt.alloc(), &words),
        Err(error) => Err(error),
    };
    line.unwrap_or(CommandLine::plain(Words::Memory))
}
