//! The service that a program's threads share.

ghost use Rattle.std.specs.Prelude.{◌≡◌, ℕ, ◌+◌, ◌≤◌, false, ◌∷◌, IfOk, IfErr, IfSome, vec_capacity};
ghost use Rattle.tbl_kinds.specs.declared.request.Request.TheVariants as ask;
ghost use Rattle.tbl_live.specs.Lent.{IsLentTo, LendsTo, IsTakenFor, IsGivenTo};
ghost use Rattle.tbl_live.specs.Saying.{MayCall, Says, CallsNothing};
ghost use Rattle.tbl_live.specs.Seats.{AreSeats, AreDealt, AreGathered, MayDeal};
ghost use Rattle.tbl_live.specs.Service.{HasSeats, seats_of, Opens, Closes};

use crate::cores::{ServiceCore, Taken};
use crate::receipts::{CallFault, Receipt};
use crate::seats::{Seat, Seats};
use crate::served::{Served, append_later};
use std::alloc::Global;
use std::marker::Model;
use std::snapshot::Snapshot;
use std::sync::Wait;
use tbl_kinds::{Bytes, Memory, Request};
use tbl_outside::{Bank, Validator};
use tbl_registry::Pin;
use turn_lock::{Place, TurnLock};

/// How many actors there are: the ground and 16 applications.
const ACTOR_COUNT: u8 = 17;

/// The most bytes that a reply has, for which a call needs room.
pub const REPLY_LIMIT: usize = 66_000;

/// A service that threads call, each by a seat of its own. Contracts see it as which one it is, and the core that it was opened over.
#[derive(Drop)]
pub struct Service<B: Bank, C: Validator, K: ServiceCore<B, C>> {
    lock: TurnLock<Served<B, C, K>>,
}

impl<B: Bank, C: Validator, K: ServiceCore<B, C>> Model for Service<B, C, K> {
    ghost use Rattle.std.specs.Prelude.{◌≡◌, length};
    ghost use Rattle.tbl_live.specs.Seats.{ServiceView};

    ghost Value = { ServiceView B C };

    ghost view = { λ s. record { of = s.lock.table.shared.table_id; opened = s.lock.table.shared.key.value.core } };

    ghost invariant = { λ s. s.lock.table.shared.key.value.base ≡ length s.lock.table.shared.key.value.core.entries };
}

impl<B: Bank, C: Validator, K: ServiceCore<B, C>> Service<B, C, K> {
    /// A service over a core, and a seat for each actor. An Err means out of memory, with the core as it was.
    pub fn open(alloc: Global, core: K) -> Result<(Service<B, C, K>, Seats<B, C, K>), K>
        requires live { (K.core core).state.ended ≡ false }
        ensures opened { IfOk result (λ made. Opens (K.core core) made.0 made.1) }
        ensures err { IfErr result (λ back. K.core back ≡ K.core core) }
    {
        let Ok(mut seats) = Vec::with_capacity(alloc, usize::from(ACTOR_COUNT)) else {
            return Err(core);
        };
        let served = Served::open(alloc, core)?;
        match TurnLock::make(alloc, served) {
            Ok((lock, place)) => {
                deal(&lock, place, 0, ACTOR_COUNT, &mut seats);
                let ground = seats.remove(0);
                let apps = seats;
                Ok((Service { lock }, Seats { ground, apps }))
            }
            Err(served) => Err(served.end()),
        }
    }

    /// Plays a request as the actor of a seat: waits for the lock, makes one step, and appends the bytes of the reply to `out`. It
    /// takes no memory but what the step does, and a further owner of a long reply, whose bytes are appended after the lock is free.
    pub fn call<R: Wait>(
        &self,
        rt: &R,
        seat: &mut Seat<B, C, K>,
        request: Request,
        out: &mut Bytes,
    ) -> Result<Receipt, CallFault>
        requires { MayCall self.now seat.old request out.old }
        ensures says { Says K.bound seat.old seat.new request out.old out.new result }
    {
        self.turn(rt, seat, request, None, out)
    }

    /// Lends the image that a handle pins, as from the call that got its address (`CFE_TBL_GetAddress`) on, and plays no request. None if
    /// the handle leads to no table, or pins no image. An Err means that the image has as many owners as can be counted. The pin can be
    /// read in any thread without the lock, also after the address was released.
    pub fn lend<R: Wait>(
        &self,
        rt: &R,
        seat: &mut Seat<B, C, K>,
        handle: u16,
    ) -> Result<Option<Pin>, Memory>
        requires { seat.old.of ≡ self.now.of }
        ensures stays { CallsNothing seat.old seat.new }
        ensures lent { IfOk result (LendsTo handle seat.new) }
        ensures pin { IfOk result (λ lent. IfSome lent (IsLentTo seat.new)) }
    {
        let served = self.lock.take(rt, &mut seat.place);
        let before = Snapshot::of(&served);
        let lent = served.lend(handle);
        seat.saw = served.count();
        seat.met = served.fault();
        self.lock.put_back(&mut seat.place, &before, served);
        lent
    }

    /// Plays a Read by the handle of a lent image, of so many bytes from an offset on, like `call`. Its bytes are taken from the image
    /// before the lock. If the handle still pins by the call that the pin was lent after, the step reads none. They are appended to `out`
    /// after the lock is free. So threads that read at the same time don't wait for each other's bytes.
    pub fn read_pinned<R: Wait>(
        &self,
        rt: &R,
        seat: &mut Seat<B, C, K>,
        pin: &Pin,
        offset: u32,
        len: u32,
        out: &mut Bytes,
    ) -> Result<Receipt, CallFault>
        requires call { MayCall self.now seat.old (ask.Read pin.now.handle offset len) out.old }
        requires lent { IsLentTo seat.old pin.now }
        ensures says { Says K.bound seat.old seat.new (ask.Read pin.now.handle offset len) out.old out.new result }
    {
        let request = Request::Read {
            handle: pin.handle(),
            offset,
            len,
        };
        match Taken::of(out.allocator(), pin, offset, len) {
            Ok(Some(taken)) => self.read_taken(rt, seat, request, taken, out),
            Ok(None) | Err(_) => self.call(rt, seat, request, out),
        }
    }

    /// Plays a Read with what was taken of a lent image before, like `call`. If the handle still pins by the call that the image was
    /// lent for, the reply is this very buffer.
    pub fn read_taken<R: Wait>(
        &self,
        rt: &R,
        seat: &mut Seat<B, C, K>,
        request: Request,
        taken: Taken<'_>,
        out: &mut Bytes,
    ) -> Result<Receipt, CallFault>
        requires call { MayCall self.now seat.old request out.old }
        requires taken { IsTakenFor seat.old request taken }
        ensures says { Says K.bound seat.old seat.new request out.old out.new result }
        // Over any bank: what was taken is what is answered, or the Read is refused.
        ensures lent { IsGivenTo B.Bank C.verdict result seat.old seat.new taken.entry }
    {
        self.turn(rt, seat, request, Some(taken), out)
    }

    /// A turn of a seat, in which its request is played; a Read with what was taken of a lent image, if anything was.
    fn turn<R: Wait>(
        &self,
        rt: &R,
        seat: &mut Seat<B, C, K>,
        request: Request,
        taken: Option<Taken<'_>>,
        out: &mut Bytes,
    ) -> Result<Receipt, CallFault>
        requires call { MayCall self.now seat.old request out.old }
        requires taken { IfSome taken (IsTakenFor seat.old request) }
        ensures says { Says K.bound seat.old seat.new request out.old out.new result }
        ensures lent { IfSome taken.entry (IsGivenTo B.Bank C.verdict result seat.old seat.new) }
    {
        let actor = seat.actor;
        let mut served = self.lock.take(rt, &mut seat.place);
        let before = Snapshot::of(&served);
        let (answer, later) = served.answer(actor, request, taken, out);
        seat.saw = served.count();
        seat.met = served.fault();
        self.lock.put_back(&mut seat.place, &before, served);
        append_later(later, out);
        answer
    }

    /// The core with all calls in its history, once all seats are back: the history that `Core` keeps, and that of `Lasting`, which nobody
    /// keeps. It waits for nobody.
    pub fn close(self, seats: Seats<B, C, K>) -> K
        requires { HasSeats self seats }
        ensures closes { Closes B.Bank C.verdict K.bound.limit self.opened (seats_of seats) (K.core result) }
    {
        let Service { lock } = self;
        let place = gather(&lock, seats.ground, seats.apps);
        lock.close(place).end()
    }
}

/// Gives so many actors, from one on, a seat each, after the seats of those before them.
fn deal<B: Bank, C: Validator, K: ServiceCore<B, C>>(
    lock: &TurnLock<Served<B, C, K>>,
    mut place: Place<Served<B, C, K>>,
    from: u8,
    count: u8,
    seats: &mut Vec<Seat<B, C, K>>,
)
    requires place { MayDeal lock.now.table.shared.table_id lock.now.table.shared.key.value place from count }
    requires before { AreDealt lock.now.table.shared.table_id from seats.old.items }
    requires room { from + count ≤ vec_capacity seats.old }
    ensures dealt { AreDealt lock.now.table.shared.table_id (from + count) seats.new.items }
    ensures room { vec_capacity seats.new ≡ vec_capacity seats.old }
{
    if count == 1 {
        seats.push_reserved(Seat::make(place, from));
        return;
    }
    let low = count / 2;
    let upper = lock.split(&mut place);
    deal(lock, place, from, low, seats);
    deal(lock, upper, from + low, count - low, seats);
}

/// Makes one seat of all, the last first.
fn gather<B: Bank, C: Validator, K: ServiceCore<B, C>>(
    lock: &TurnLock<Served<B, C, K>>,
    ground: Seat<B, C, K>,
    mut apps: Vec<Seat<B, C, K>>,
) -> Place<Served<B, C, K>>
    requires { AreSeats lock.now.table.shared.table_id (ground ∷ apps.items) }
    ensures { AreGathered lock.now.table.shared.table_id (ground ∷ apps.items) result }
{
    let Some(last) = apps.pop() else {
        unreachable!()
    };
    let mut place = last.leave();
    'apps: while let Some(seat) = apps.pop() {
        let mut lower = seat.leave();
        lock.join(&mut lower, place);
        place = lower;
    }
    let mut lowest = ground.leave();
    lock.join(&mut lowest, place);
    lowest
}
