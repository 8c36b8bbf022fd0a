//! A stream of session records, in pieces that may be cut anywhere.

ghost use Rattle.std.specs.Prelude.{◌≡◌, ◌<◌, ◌≤◌, ◌==◌, [], ◌++◌, length, drop, false, IfOk, IfErr};
ghost use Rattle.tbl_kinds.specs.Heads.{IsShort};
ghost use Rattle.tbl_stream.specs.Playing.{IsLive, PlaysOf, moment, unplayed};
ghost use Rattle.tbl_stream.specs.Standing.{Leaves, IsFront};
ghost use Rattle.tbl_stream.specs.Writing.{taken_of};
ghost use Rattle.tbl_stream.specs.Feeding.{answer_of, Feeds, FeedsPiece};
ghost use Rattle.tbl_stream.specs.Finishing.{FinishesAs, end_at};
ghost use Rattle.tbl_stream.specs.declared.standing.Standing.TheVariants.{Open, Full};

use crate::playback::Playback;
use crate::standing::Standing;
use session_records::{bytes_lacking, drop_front};
use std::alloc::Global;
use std::marker::Model;
use tbl_core::Engine;
use tbl_outside::{Bank, Sink, Validator};

/// What a stream answers to a piece of its input.
#[derive(Clone, Copy, PartialEq, Eq)]
pub enum Fed {
    /// All records that are whole were played and their entries written.
    More,
    /// The stream is over: a bad record or a byte too many follows those that were played, the engine has no room, a boot failed or was
    /// stopped, or the sink failed.
    Over,
    /// The stream is over, since memory ran out.
    Memory,
}

/// Records that are played as their bytes come in. It holds the beginning of one record at most, and no entry: each goes to the sink
/// before the next record is looked for.
#[derive(Drop)]
pub struct Stream<B: Bank, C: Validator> {
    playback: Playback<B, C>,
    /// The beginning of a record that isn't whole yet.
    kept: Vec<u8>,
    standing: Standing,
}

impl<B: Bank, C: Validator> Model for Stream<B, C> {
    ghost use Rattle.tbl_stream.specs.Playing.{Streaming};

    ghost Value = { Streaming B C };

    ghost use Rattle.std.specs.Prelude.{◌≡◌, false};
    ghost use Rattle.tbl_stream.specs.Standing.{IsFront};
    ghost use Rattle.tbl_stream.specs.declared.standing.Standing.TheVariants.{Open};

    ghost view = { λ s. record { played = s.playback; rest = s.kept.items; standing = s.standing } };

    ghost invariant = { λ s. (s.standing ≡ Open → IsFront s.playback.left s.kept.items) × (s.standing ≡ Open → s.playback.engine.state.ended ≡ false) };
}

impl<B: Bank, C: Validator> Stream<B, C> {
    /// A stream over an engine, before anything was fed, of no more records than the limit, if there is one. Its first entry has the place
    /// after those that the engine has played. An Err means out of memory, and gives the engine back.
    pub fn make(
        alloc: Global,
        engine: Engine<B, C>,
        limit: Option<u32>,
    ) -> Result<Stream<B, C>, Engine<B, C>>
        requires live { engine.state.ended ≡ false }
        ensures ok { IfOk result (λ stream. stream ≡ record { played = unplayed engine limit; rest = []; standing = Open }) }
        ensures err { IfErr result (λ back. back ≡ engine) }
    {
        Ok(Stream {
            playback: Playback::make(alloc, engine, limit)?,
            kept: Vec::new(alloc),
            standing: Standing::Open,
        })
    }

    /// Plays the records that are whole with this piece of the input, and writes their entries. It doesn't matter where the input is cut.
    pub fn feed<K: Sink>(&mut self, piece: &[u8], sink: &mut K) -> Fed
        requires is_open { self.old.standing ≡ Open }
        ensures answer { result ≡ answer_of self.new.standing }
        // All that was fed is the spellings of the requests of some entries, and after them what the answer says. Whatever the engine
        // had played before, it has played that and these after it, and the sink took their spellings.
        ensures feeds { FeedsPiece B.Bank C.verdict self.new.standing (moment K.Sink self.old.played sink.old) (moment K.Sink self.new.played sink.new) (self.old.rest ++ piece.now) self.new.rest }
        ensures kept { result ≡ Fed.More → length self.new.rest < 32836 }
    {
        self.standing = play_piece(&mut self.playback, &mut self.kept, piece, sink);
        answer(self.standing)
    }

    /// Ends the stream: writes the end record, unless an entry before it wasn't written whole, and answers the status.
    /// The input is at its end, or a read of it failed.
    pub fn finish<K: Sink>(&mut self, read_failed: bool, sink: &mut K) -> u8
        ensures finishes { FinishesAs self.old.standing read_failed (length self.old.rest == 0) result (end_at self.old.played) (taken_of K.Sink sink.old) (taken_of K.Sink sink.new) }
        ensures same { self.new ≡ self.old }
        ensures count { K.faults sink.old ≤ K.faults sink.new }
    {
        let is_whole = self.kept.is_empty();
        self.playback
            .finish(self.standing, read_failed, is_whole, sink)
    }

    /// Ends the stream as when the engine has no room.
    pub(crate) fn stop(&mut self)
        ensures { self.new ≡ record self.old { standing = Full } }
    {
        self.standing = Standing::Full;
    }

    /// The engine as it is.
    pub fn end(self) -> Engine<B, C>
        ensures { result ≡ self.played.engine }
    {
        self.playback.end()
    }
}

/// What this standing answers.
fn answer(standing: Standing) -> Fed
    ensures { result ≡ answer_of standing }
{
    match standing {
        Standing::Open => Fed::More,
        Standing::Bad
        | Standing::TooMany
        | Standing::Full
        | Standing::BootFault
        | Standing::BootStopped
        | Standing::SinkFailed => Fed::Over,
        Standing::Memory | Standing::Unwritten => Fed::Memory,
    }
}

/// Completes the record whose beginning is kept, and plays what is whole after it.
fn play_piece<B: Bank, C: Validator, K: Sink>(
    playback: &mut Playback<B, C>,
    kept: &mut Vec<u8>,
    piece: &[u8],
    sink: &mut K,
) -> Standing
    requires live { IsLive playback.old }
    requires begun { IsFront playback.old.left kept.old.items }
    ensures { Feeds B.Bank C.verdict result (moment K.Sink playback.old sink.old) (moment K.Sink playback.new sink.new) (kept.old.items ++ piece.now) kept.new.items }
{
    let mut at = 0;
    'completes: while !kept.is_empty() {
        if at == piece.len() {
            return Standing::Open;
        }
        match complete(playback, kept, piece, &mut at, sink) {
            Standing::Open => {}
            stop => return stop,
        }
    }
    play_rest(playback, kept, piece, at, sink)
}

/// Moves bytes of the piece after the kept ones, as many as the record's head or its body lacks, and plays the record if it is whole.
fn complete<B: Bank, C: Validator, K: Sink>(
    playback: &mut Playback<B, C>,
    kept: &mut Vec<u8>,
    piece: &[u8],
    at: &mut usize,
    sink: &mut K,
) -> Standing
    requires live { IsLive playback.old }
    requires short { IsShort kept.old.items }
    requires some { at.old < length piece.now }
    ensures within { at.new ≤ length piece.now }
    ensures further { result ≡ Open → at.old < at.new }
    ensures leaves { Leaves result playback.new.left kept.new.items }
    ensures plays { PlaysOf B.Bank C.verdict result (moment K.Sink playback.old sink.old) (moment K.Sink playback.new sink.new)
        (kept.old.items ++ drop at.old piece.now) (kept.new.items ++ drop at.new piece.now) }
{
    let (_, behind) = piece.split_at(*at);
    let count = usize::min(bytes_lacking(kept.as_slice()), behind.len());
    let (front, _) = behind.split_at(count);
    match kept.extend_from_slice(front) {
        Err(_) => Standing::Memory,
        Ok(()) => {
            *at += count;
            play_kept(playback, kept, sink)
        }
    }
}

/// Plays what is whole of the kept bytes, and drops it.
fn play_kept<B: Bank, C: Validator, K: Sink>(
    playback: &mut Playback<B, C>,
    kept: &mut Vec<u8>,
    sink: &mut K,
) -> Standing
    requires live { IsLive playback.old }
    ensures leaves { Leaves result playback.new.left kept.new.items }
    ensures plays { PlaysOf B.Bank C.verdict result (moment K.Sink playback.old sink.old) (moment K.Sink playback.new sink.new) kept.old.items kept.new.items }
{
    let mut used = 0;
    let standing = playback.play_whole(kept.as_slice(), &mut used, sink);
    drop_front(kept, used);
    standing
}

/// Plays what is whole of a piece from a place on, and keeps the beginning of a record after it.
fn play_rest<B: Bank, C: Validator, K: Sink>(
    playback: &mut Playback<B, C>,
    kept: &mut Vec<u8>,
    piece: &[u8],
    from: usize,
    sink: &mut K,
) -> Standing
    requires live { IsLive playback.old }
    requires empty { kept.old.items ≡ [] }
    requires within { from ≤ length piece.now }
    ensures { Feeds B.Bank C.verdict result (moment K.Sink playback.old sink.old) (moment K.Sink playback.new sink.new) (drop from piece.now) kept.new.items }
{
    let mut at = from;
    match playback.play_whole(piece, &mut at, sink) {
        Standing::Open => match kept.extend_from_slice(&piece[at..]) {
            Ok(()) => Standing::Open,
            Err(_) => Standing::Memory,
        },
        stop => stop,
    }
}
