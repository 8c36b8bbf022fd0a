//! The words of the command line.

ghost use Rattle.std.specs.Prelude.{◌≡◌, ◌↔◌, Some, ◌∷◌, [], codes, map, IfOk, IfErr};
ghost use Rattle.tbl_kinds.specs.Admitted.{Admitted, all_admitted};
ghost use Rattle.tbl_top.specs.Words.{Asks, AsksWithShape, HasThreads, IsFound, Spells, given_bytes};
ghost use Rattle.tbl_top.specs.declared.words.Word.{Word as CommandWord};
ghost use Rattle.tbl_top.specs.declared.words.Word.TheVariants.{Crew, Watch};
ghost use Rattle.tbl_top.specs.declared.words.Telling.TheVariants.{Report, Transcript};

use admit_lists::read_admit;
use plain_text::read_decimal;
use std::alloc::Global;
use tbl_kinds::{Admit, Bytes, Memory};
use tbl_maker::{Shape, read_shape};

/// The most rounds of a drill: with the records that it begins with it has as many as a session may have.
const MOST_ROUNDS: u64 = 32_759;

/// What the program is asked to do.
#[derive(Drop)]
pub enum Word {
    /// `play`: plays the records in order, as they come in.
    Play,
    /// `crew`: plays them with a thread for each actor, once all of them were read.
    Crew,
    /// `watch`: plays them like `crew`, and writes a report of the images that application 16 got.
    Watch,
    /// `store`: writes the store as text, a line for each block.
    Store,
    /// `drill SEED ROUNDS`: plays a session that the seed decides, and writes a line that sums it up.
    Drill { seed: u64, rounds: u32 },
    /// `make`: makes the table file of a description.
    Make,
    /// `describe SHAPE`: describes a table file by a shape.
    Describe { shape: Shape },
}

/// What a word asks for that comes without further words.
fn lone_word(word: &[u8]) -> Option<Word>
    ensures { (given : CommandWord) → (result ≡ Some given) ↔ Spells (word.now ∷ []) given all_admitted }
{
    if word == b"play".as_slice() {
        Some(Word::Play)
    } else if word == b"crew".as_slice() {
        Some(Word::Crew)
    } else if word == b"watch".as_slice() {
        Some(Word::Watch)
    } else if word == b"store".as_slice() {
        Some(Word::Store)
    } else if word == b"make".as_slice() {
        Some(Word::Make)
    } else {
        None
    }
}

/// What three words ask for: a drill.
fn drill_of(word: &[u8], seed: &[u8], rounds: &[u8]) -> Option<Word>
    ensures { (given : CommandWord) → (result ≡ Some given) ↔ Spells (word.now ∷ seed.now ∷ rounds.now ∷ []) given all_admitted }
{
    if word != b"drill".as_slice() {
        return None;
    }
    let seed = read_decimal(seed, u64::MAX)?;
    let rounds = read_decimal(rounds, MOST_ROUNDS)?;
    Some(Word::Drill {
        seed,
        rounds: rounds as u32,
    })
}

/// What four words ask for: to play a session under lists of admitted spacecraft and processors.
fn four_words(
    word: &[u8],
    more: &[u8],
    spacecraft: &[u8],
    processors: &[u8],
) -> Option<(Word, Admit)>
    ensures { IsFound result (word.now ∷ more.now ∷ spacecraft.now ∷ processors.now ∷ []) }
{
    if more != b"admit".as_slice() {
        return None;
    }
    let admit = read_admit(spacecraft, processors)?;
    if word == b"play".as_slice() {
        Some((Word::Play, admit))
    } else if word == b"crew".as_slice() {
        Some((Word::Crew, admit))
    } else {
        None
    }
}

/// The word, with files of all spacecraft and processors admitted.
fn admitting_all(word: Option<Word>) -> Option<(Word, Admit)>
    ensures { (given : CommandWord) (admit : Admitted) → (result ≡ Some (given, admit)) ↔ ((word ≡ Some given) × (admit ≡ all_admitted)) }
{
    Some((word?, Admit::all()))
}

/// What one word asks for.
fn one_word(word: &[u8]) -> Option<(Word, Admit)>
    ensures { IsFound result (word.now ∷ []) }
{
    admitting_all(lone_word(word))
}

/// What three words ask for.
fn three_words(word: &[u8], seed: &[u8], rounds: &[u8]) -> Option<(Word, Admit)>
    ensures { IsFound result (word.now ∷ seed.now ∷ rounds.now ∷ []) }
{
    admitting_all(drill_of(word, seed, rounds))
}

/// What two words ask for: to describe a table file. Memory may run out for the shape.
fn two_words(alloc: Global, word: &[u8], shape: &[u8]) -> Result<Option<(Word, Admit)>, Memory>
    ensures told { IfOk result (λ found. IsFound found (word.now ∷ shape.now ∷ [])) }
    ensures memory { IfErr result (λ _. word.now ≡ codes "describe") }
{
    if word != b"describe".as_slice() {
        return Ok(None);
    }
    match read_shape(alloc, shape)? {
        Some(shape) => Ok(Some((Word::Describe { shape }, Admit::all()))),
        None => Ok(None),
    }
}

/// What the words ask for, and the spacecraft and processors that files are admitted from then; None if the program doesn't know them.
/// Memory may run out for a shape.
pub(crate) fn word_of(alloc: Global, words: &[Bytes]) -> Result<Option<(Word, Admit)>, Memory>
    ensures told { IfOk result (λ found. IsFound found (map given_bytes words.now)) }
    ensures memory { IfErr result (λ _. AsksWithShape words.now) }
{
    match words {
        [word] => Ok(one_word(word.bytes())),
        [word, shape] => two_words(alloc, word.bytes(), shape.bytes()),
        [word, seed, rounds] => Ok(three_words(word.bytes(), seed.bytes(), rounds.bytes())),
        [word, more, spacecraft, processors] => Ok(four_words(
            word.bytes(),
            more.bytes(),
            spacecraft.bytes(),
            processors.bytes(),
        )),
        _ => Ok(None),
    }
}

/// What is written of a session with a thread for each actor.
#[derive(Clone, Copy)]
pub(crate) enum Telling {
    /// `crew`: its transcript.
    Transcript,
    /// `watch`: the report of the images that application 16 got.
    Report,
}

/// What is written of a session with a thread for each actor, and its lists, if this is one.
fn telling_of(given: Option<(Word, Admit)>) -> Option<(Telling, Admit)>
    ensures crew { (admit : Admitted) → (result ≡ Some (Transcript, admit)) ↔ (given ≡ Some (Crew, admit)) }
    ensures watch { (admit : Admitted) → (result ≡ Some (Report, admit)) ↔ (given ≡ Some (Watch, admit)) }
{
    let (word, admit) = given?;
    match word {
        Word::Crew => Some((Telling::Transcript, admit)),
        Word::Watch => Some((Telling::Report, admit)),
        Word::Play => None,
        Word::Store => None,
        Word::Drill { .. } => None,
        Word::Make => None,
        Word::Describe { .. } => None,
    }
}

/// What the words ask for, if it is a session.
fn session_word(words: &[Bytes]) -> Option<(Word, Admit)>
    ensures { (given : CommandWord) (admit : Admitted) → HasThreads given → (result ≡ Some (given, admit)) ↔ Asks words.now given admit }
{
    match words {
        [word] => one_word(word.bytes()),
        [word, more, spacecraft, processors] => four_words(
            word.bytes(),
            more.bytes(),
            spacecraft.bytes(),
            processors.bytes(),
        ),
        _ => None,
    }
}

/// What is written of a session with a thread for each actor, and its lists, if the words ask for one.
pub(crate) fn threads_of(words: &[Bytes]) -> Option<(Telling, Admit)>
    ensures crew { (admit : Admitted) → (result ≡ Some (Transcript, admit)) ↔ Asks words.now Crew admit }
    ensures watch { (admit : Admitted) → (result ≡ Some (Report, admit)) ↔ Asks words.now Watch admit }
{
    telling_of(session_word(words))
}
