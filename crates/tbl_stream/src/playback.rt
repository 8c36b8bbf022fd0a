//! Plays whole records at the front of bytes, and writes each entry before the next record is looked for.

ghost use Rattle.std.specs.Prelude.{◌≡◌, ◌+◌, ◌%◌, ◌^◌, ◌<◌, ◌≤◌, false, length, drop, IfOk, IfErr, IfSome, MatchOption};
ghost use Rattle.tbl_kinds.specs.Records.{IsRecord, spelling};
ghost use Rattle.tbl_stream.specs.Places.{place_of};
ghost use Rattle.tbl_stream.specs.Limits.{and_more, is_spent};
ghost use Rattle.tbl_stream.specs.Finishing.{FinishesAs, end_at};
ghost use Rattle.tbl_stream.specs.Playing.{IsLive, PlaysOf, PlaysRecord, moment, unplayed};
ghost use Rattle.tbl_stream.specs.Standing.{Leaves, standing_after};
ghost use Rattle.tbl_stream.specs.Writing.{taken_of};

use crate::finding::next_item;
use crate::finishing::finish;
use crate::standing::Standing;
use crate::stepping::{answer, first_stop};
use crate::writing::write;
use std::alloc::Global;
use std::marker::Model;
use tbl_core::Engine;
use tbl_kinds::{Actor, Request};
use tbl_outside::{Bank, Sink, Validator};

/// How many places there are: the one after FFFFFFFE is 0 again, since FFFFFFFF begins the end record.
const PLACE_COUNT: u64 = 4_294_967_295;

/// How many bytes of room the spelling of an entry has from the beginning. Longer ones take more when they come.
const SHORT_SPELLING: usize = 256;

/// The place after this one.
fn next_place(place: u32) -> u32
    ensures { result ≡ place_of (place + 1) }
{
    ((u64::from(place) + 1) % PLACE_COUNT) as u32
}

/// The offset after so many bytes more.
fn next_offset(offset: u32, used: usize) -> u32
    requires { used ≤ 32836 }
    ensures { result ≡ (offset + used) % 2 ^ 32 }
{
    ((u64::from(offset) + used as u64) % (1 << 32)) as u32
}

/// How many records may follow after one more.
fn one_less(left: Option<u32>) -> Option<u32>
    requires { is_spent left ≡ false }
    ensures { left ≡ and_more 1 result }
{
    match left {
        None => None,
        Some(count) => Some(count - 1),
    }
}

/// The engine, and the numbers and the room that the transcript needs.
#[derive(Drop)]
pub(crate) struct Playback<B: Bank, C: Validator> {
    alloc: Global,
    engine: Engine<B, C>,
    /// The place of the next entry in the transcript.
    place: u32,
    /// The number of bytes of the records that were played, in four bytes.
    offset: u32,
    /// How many records may still be played; None if there is no limit.
    left: Option<u32>,
    /// Room for the spelling of one entry.
    out: Vec<u8>,
}

impl<B: Bank, C: Validator> Model for Playback<B, C> {
    ghost use Rattle.tbl_stream.specs.Playing.{Played};

    ghost Value = { Played B C };

    ghost use Rattle.std.specs.Prelude.{◌<◌, ◌^◌};
    ghost use Rattle.tbl_stream.specs.Places.{place_count};

    ghost view = { λ p. record { engine = p.engine; place = p.place; offset = p.offset; left = p.left } };

    ghost invariant = { λ p. p.place < place_count × p.offset < 2 ^ 32 };
}

impl<B: Bank, C: Validator> Playback<B, C> {
    /// A stream before anything was played, of no more records than the limit. An error gives the engine back if memory ran out.
    pub(crate) fn make(
        alloc: Global,
        engine: Engine<B, C>,
        limit: Option<u32>,
    ) -> Result<Playback<B, C>, Engine<B, C>>
        ensures ok { IfOk result (λ p. p ≡ unplayed engine limit) }
        ensures err { IfErr result (λ back. back ≡ engine) }
    {
        let Ok(out) = Vec::with_capacity(alloc, SHORT_SPELLING) else {
            return Err(engine);
        };
        let place = (engine.played() % PLACE_COUNT) as u32;
        Ok(Playback {
            alloc,
            engine,
            place,
            offset: 0,
            left: limit,
            out,
        })
    }

    /// The engine as it is.
    pub(crate) fn end(self) -> Engine<B, C>
        ensures { result ≡ self.engine }
    {
        self.engine
    }

    /// Plays a record. `Ok(None)` if its entry was written and a further one may follow, `Ok(Some(..))` if it was played and the stream is
    /// over.
    fn play_record<K: Sink>(
        &mut self,
        actor: Actor,
        request: Request,
        used: usize,
        sink: &mut K,
    ) -> Result<Option<Standing>, Standing>
        requires is_record { IsRecord (record { actor = actor; request = request }) }
        requires used { used ≡ length (spelling (record { actor = actor; request = request })) }
        requires live { IsLive self.old }
        requires follows { is_spent self.old.left ≡ false }
        ensures { PlaysRecord B.Bank C.verdict (moment K.Sink self.old sink.old) (moment K.Sink self.new sink.new) (record { actor = actor; request = request }) result }
    {
        let (entry, ending) = answer(&mut self.engine, actor, request)?;
        let stop = write(&mut self.out, self.place, &entry, sink);
        self.place = next_place(self.place);
        self.offset = next_offset(self.offset, used);
        self.left = one_less(self.left);
        Ok(first_stop(stop, ending))
    }

    /// Plays the record at a place if one is whole, and answers None once its entry was written; else what is in its way.
    fn play_next<K: Sink>(&mut self, bytes: &[u8], at: &mut usize, sink: &mut K) -> Option<Standing>
        requires live { IsLive self.old }
        requires within { at.old ≤ length bytes.now }
        ensures within { at.new ≤ length bytes.now }
        ensures further { MatchOption result (at.old < at.new) (λ _. at.old ≤ at.new) }
        ensures leaves { IfSome result (λ standing. Leaves standing self.new.left (drop at.new bytes.now)) }
        ensures plays { PlaysOf B.Bank C.verdict (standing_after result) (moment K.Sink self.old sink.old) (moment K.Sink self.new sink.new) (drop at.old bytes.now) (drop at.new bytes.now) }
    {
        let mut request = Request::Exit;
        match next_item(self.alloc, self.left, &bytes[*at..], &mut request) {
            Err(standing) => Some(standing),
            Ok((actor, used)) => match self.play_record(actor, request, used, sink) {
                Err(standing) => Some(standing),
                Ok(stop) => {
                    *at += used;
                    stop
                }
            },
        }
    }

    /// Plays each record that is whole, from a place on.
    pub(crate) fn play_whole<K: Sink>(
        &mut self,
        bytes: &[u8],
        at: &mut usize,
        sink: &mut K,
    ) -> Standing
        requires live { IsLive self.old }
        requires within { at.old ≤ length bytes.now }
        ensures within { at.new ≤ length bytes.now }
        ensures further { at.old ≤ at.new }
        ensures leaves { Leaves result self.new.left (drop at.new bytes.now) }
        ensures plays { PlaysOf B.Bank C.verdict result (moment K.Sink self.old sink.old) (moment K.Sink self.new sink.new) (drop at.old bytes.now) (drop at.new bytes.now) }
    {
        'records: loop {
            if let Some(standing) = self.play_next(bytes, at, sink) {
                return standing;
            }
        }
    }

    /// Writes the end record, unless an entry before it wasn't written whole, and answers the status of the stream.
    pub(crate) fn finish<K: Sink>(
        &self,
        standing: Standing,
        read_failed: bool,
        is_whole: bool,
        sink: &mut K,
    ) -> u8
        ensures ends { FinishesAs standing read_failed is_whole result (end_at self.now) (taken_of K.Sink sink.old) (taken_of K.Sink sink.new) }
        ensures count { K.faults sink.old ≤ K.faults sink.new }
    {
        let ended = (self.place, self.offset);
        finish(standing, read_failed, is_whole, ended, sink)
    }
}
