//! The words of the command line.

ghost use Rattle.std.specs.Prelude.{◌≡◌, ◌↔◌, Some, [], ◌∷◌};
ghost use Rattle.tbl_kinds.specs.Admitted.{Admitted};
ghost use Rattle.tbl_stream.specs.Words.{Asks, Spells};

use admit_lists::read_admit;
use tbl_kinds::{Admit, Bytes};

/// The lists of three words.
fn lists_of(word: &[u8], spacecraft: &[u8], processors: &[u8]) -> Option<Admit>
    ensures { (admit : Admitted) → (result ≡ Some admit) ↔ Spells (word.now ∷ spacecraft.now ∷ processors.now ∷ []) admit }
{
    if word != b"admit".as_slice() {
        return None;
    }
    read_admit(spacecraft, processors)
}

/// The spacecraft and processors that files are admitted from: all if there is no word, and those of the lists after `admit`. None if the
/// words are others.
pub(crate) fn admitted_by(words: &[Bytes]) -> Option<Admit>
    ensures { (admit : Admitted) → (result ≡ Some admit) ↔ Asks words.now admit }
{
    match words {
        [] => Some(Admit::all()),
        [word, spacecraft, processors] => {
            lists_of(word.bytes(), spacecraft.bytes(), processors.bytes())
        }
        _ => None,
    }
}
