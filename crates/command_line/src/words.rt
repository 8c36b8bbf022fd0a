//! The words of the command line.
use std::alloc::Global;
use std::env;
use std::io::ErrorKind;
use std::rt::Env;
use tbl_adapters::Syncing;
use tbl_kinds::{Bytes, Memory};

/// Why the words can't be told.
#[derive(Clone, Copy, PartialEq, Eq)]
pub enum WordsFault {
    /// Memory ran out.
    Memory,
    /// They can't be read, or one of them isn't UTF-8.
    Unreadable,
    /// The name of a file has to come after `--store`, and none does.
    NoName,
}

impl From<Memory> for WordsFault {
    fn from(_memory: Memory) -> WordsFault {
        WordsFault::Memory
    }
}

/// What the command line says: where the store is and how it is written, and the words after that.
#[derive(Drop)]
pub struct CommandLine {
    /// The name of the store file; None where none was given.
    pub store: Option<String>,
    /// How the store file is written.
    pub syncing: Syncing,
    /// The first word that is no option, and all words after it, each as its bytes.
    pub words: Vec<Bytes>,
}

/// Puts a word last.
fn push_word(alloc: Global, words: &mut Vec<Bytes>, word: &str) -> Result<(), WordsFault> {
    if words.push(bytes_of(alloc, word.as_bytes())?).is_err() {
        return Err(WordsFault::Memory);
    }
    Ok(())
}

/// The command line after the program's name: `--store FILE` and `--durable`, in any order, and then words.
pub fn command_line<R: Env + AllocGlobal>(rt: &R) -> Result<CommandLine, WordsFault> {
    let given = match env::args(rt) {
        Ok(given) => given,
        Err(error) if error.kind() == ErrorKind::OutOfMemory => return Err(WordsFault::Memory),
        Err(_) => return Err(WordsFault::Unreadable),
    };
    let mut line = CommandLine {
        store: None,
        syncing: Syncing::Later,
        words: Vec::new(rt.alloc()),
    };
    let mut takes_name = false;
    for word in given.skip(1) {
        if takes_name {
            line.store = Some(word);
            takes_name = false;
        } else if line.words.is_empty() && word.as_str() == "--store" {
            takes_name = true;
        } else if line.words.is_empty() && word.as_str() == "--durable" {
            line.syncing = Syncing::EachWrite;
        } else {
            push_word(rt.alloc(), &mut line.words, word.as_str())?;
        }
    }
    if takes_name {
        return Err(WordsFault::NoName);
    }
    Ok(line)
}

fn bytes_of(alloc: Global, text: &[u8]) -> Result<Bytes, Memory> {
    let mut bytes = Bytes::make(alloc, text.len())?;
    bytes.append(text);
    Ok(bytes)
}
