//! What a program says of itself.

ghost use Rattle.std.specs.Prelude.{◌≡◌, IfNone};

use tbl_kinds::Bytes;
use tbl_outside::Sink;

/// The texts that a program answers in place of its work.
pub struct Information {
    /// What `--help` answers.
    pub help: &'static str,
    /// What `--version` answers.
    pub version: &'static str,
}

impl Information {
    /// The text that a word asks for, if no further word comes with it.
    fn text_for(&self, words: &[Bytes]) -> Option<&'static str> {
        match words {
            [word] if word.bytes() == b"--help".as_slice() => Some(self.help),
            [word] if word.bytes() == b"--version".as_slice() => Some(self.version),
            _ => None,
        }
    }

    /// Writes the text that the words ask for, and gives the status for that: 0, or 4 if the sink failed. None if they ask for no text.
    pub fn answer<K: Sink>(&self, words: &[Bytes], sink: &mut K) -> Option<u8>
        ensures untouched { IfNone result (sink.new ≡ sink.old) }
    {
        let text = self.text_for(words)?;
        match sink.write(text.as_bytes()) {
            Ok(()) => Some(0),
            Err(_) => Some(4),
        }
    }
}
