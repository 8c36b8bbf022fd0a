//! The flight: what runs in which thread.

ghost use Rattle.std.specs.Prelude.{◌≡◌, ◌<◌, ◌∷◌, false, All, length, IfOk};
ghost use Rattle.std.specs.Thread.{IsSync};
ghost use Rattle.tbl_kinds.specs.Places.{bank_size};
ghost use Rattle.tbl_live.specs.Seats.{AreSeats, IsAppOf, IsOfActor, IsSame};
ghost use Rattle.live_example.specs.Flights.{AreOfBoard, AreSame, AreShown};

use crate::applications::{
    GUIDANCE_HANDLE, LIMITS, Reads, THERMAL_HANDLE, begin_guidance, begin_thermal, read_last,
    read_often,
};
use crate::ground::load_new_limits;
use crate::report::{tell_limits, tell_reads, tell_receipts};
use crate::shared::{Place, Shared, Stop};
use shipped_kit::FirstByte;
use std::alloc::Global;
use std::sync::{Mutex, Wait};
use std::thread::{self, Threads, join_mut};
use tbl_core::Core;
use tbl_fakes::CalmBank;
use tbl_history::start;
use tbl_kinds::{Admit, Memory};
use tbl_live::{Board, Seats, Service, Ticket};

/// How many bytes of preserved memory there are.
const BANK_SIZE: u32 = 262_144;

/// How many seats the applications have.
const THREADS: usize = 16;

/// Preserved memory that was never written to.
fn bank(alloc: Global) -> Result<CalmBank, Memory>
    ensures { IfOk result (λ bank. length bank ≡ bank_size) }
{
    CalmBank::of_zeros(alloc, BANK_SIZE)
}

/// A service without validation functions over preserved memory that was never written to.
fn new_core(alloc: Global) -> Result<Core<CalmBank, FirstByte>, Stop>
    ensures live { IfOk result (λ core. core.state.ended ≡ false) }
{
    match start(alloc, bank(alloc)?, Vec::new(alloc), Admit::all()) {
        Ok(core) => Ok(core),
        Err(_) => Err(Stop::Memory),
    }
}

/// What the two applications read, in a room for each.
#[derive(Drop)]
struct Rooms {
    rooms: [Mutex<Option<Reads>>; 2],
}

/// The handle of an application, by the place of its seat.
fn handle_of(place: usize) -> Option<u16> {
    match place {
        0 => Some(GUIDANCE_HANDLE),
        1 => Some(THERMAL_HANDLE),
        _ => None,
    }
}

/// The thread of a seat: that of an application reads the limits, and keeps what it read in the application's room.
fn read_in_thread<R: Wait>(
    rt: &R,
    alloc: Global,
    shared: &Shared,
    seat: &mut Place,
    place: usize,
    rooms: &Rooms,
)
    requires app { IsAppOf shared.now.service.of seat.old }
    ensures same { IsSame seat.old seat.new }
{
    let Some(handle) = handle_of(place) else {
        return;
    };
    if let Some(room) = rooms.rooms.get(place) {
        let reads = read_often(rt, alloc, shared, seat, handle);
        *room.lock(rt) = reads.ok();
    }
}

/// The applications read the limits, each in its thread.
fn read_each<R: Threads + Wait + Sync>(
    rt: &R,
    alloc: Global,
    shared: &Shared,
    apps: &mut [Place],
    rooms: &Rooms,
)
    requires apps { All (IsAppOf shared.now.service.of) apps.old }
    ensures same { AreSame apps.old apps.new }
{
    thread::for_each_mut(
        rt,
        apps,
        THREADS,
        &|place: usize, seat: &mut Place|
            requires { IsAppOf shared.now.service.of seat.now }
            ensures { IsSame seat.entry.now seat.exit.now }
        { read_in_thread(rt, alloc, shared, seat, place, rooms) },
    );
}

/// They do so while the ground loads new limits in a further thread.
fn read_beside<R: Threads + Wait + Sync>(
    rt: &R,
    alloc: Global,
    shared: &Shared,
    ground: &mut Place,
    apps: &mut [Place],
    rooms: &Rooms,
) -> Result<[Ticket; 4], Stop>
    requires ground { IsOfActor shared.now.service.of 0 ground.old }
    requires apps { All (IsAppOf shared.now.service.of) apps.old }
    ensures ground { IsSame ground.old ground.new }
    ensures apps { AreSame apps.old apps.new }
    ensures shown { IfOk result (AreOfBoard shared.now.board) }
{
    let mut loaded = Err(Stop::Refused);
    let mut load = ||
        requires { IsOfActor shared.now.service.of 0 ground.now }
        ensures { IsSame ground.entry.now ground.exit.now × IfOk loaded.exit (AreOfBoard shared.entry.now.board) }
    { loaded = load_new_limits(rt, alloc, shared, ground) };
    let mut read = ||
        requires { IsSync R.row × All (IsAppOf shared.now.service.of) apps.now }
        ensures { AreSame apps.entry.now apps.exit.now }
    { read_each(rt, alloc, shared, apps, rooms) };
    join_mut(rt, &mut load, &mut read);
    loaded
}

/// The same, by the seats of all.
fn read_and_load<R: Threads + Wait + Sync>(
    rt: &R,
    alloc: Global,
    shared: &Shared,
    seats: &mut Seats<CalmBank, FirstByte, Core<CalmBank, FirstByte>>,
    rooms: &Rooms,
) -> Result<[Ticket; 4], Stop>
    requires seats { AreSeats shared.now.service.of (seats.old.ground ∷ seats.old.apps.items) }
    ensures seats { AreSeats shared.now.service.of (seats.new.ground ∷ seats.new.apps.items) }
    ensures shown { IfOk result (AreOfBoard shared.now.board) }
{
    read_beside(
        rt,
        alloc,
        shared,
        &mut seats.ground,
        seats.apps.as_mut_slice(),
        rooms,
    )
}

/// Guidance begins, by its seat.
fn begin_first<R: Wait>(
    rt: &R,
    alloc: Global,
    shared: &Shared,
    seats: &mut Seats<CalmBank, FirstByte, Core<CalmBank, FirstByte>>,
) -> Result<[Ticket; 3], Stop>
    requires seats { AreSeats shared.now.service.of (seats.old.ground ∷ seats.old.apps.items) }
    ensures seats { AreSeats shared.now.service.of (seats.new.ground ∷ seats.new.apps.items) }
    ensures shown { IfOk result (AreOfBoard shared.now.board) }
{
    let seat = &mut seats.apps[0];
    begin_guidance(rt, alloc, shared, seat)
}

/// Then the thermal application, by its own.
fn begin_second<R: Wait>(
    rt: &R,
    alloc: Global,
    shared: &Shared,
    seats: &mut Seats<CalmBank, FirstByte, Core<CalmBank, FirstByte>>,
) -> Result<[Ticket; 2], Stop>
    requires seats { AreSeats shared.now.service.of (seats.old.ground ∷ seats.old.apps.items) }
    ensures seats { AreSeats shared.now.service.of (seats.new.ground ∷ seats.new.apps.items) }
    ensures shown { IfOk result (AreOfBoard shared.now.board) }
{
    let seat = &mut seats.apps[1];
    begin_thermal(rt, alloc, shared, seat)
}

/// Each of them reads once more in the end.
fn read_in_the_end<R: Wait>(
    rt: &R,
    alloc: Global,
    shared: &Shared,
    seats: &mut Seats<CalmBank, FirstByte, Core<CalmBank, FirstByte>>,
    place: usize,
    handle: u16,
) -> Result<[u8; LIMITS], Stop>
    requires place { place < 16 }
    requires seats { AreSeats shared.now.service.of (seats.old.ground ∷ seats.old.apps.items) }
    ensures seats { AreSeats shared.now.service.of (seats.new.ground ∷ seats.new.apps.items) }
{
    let seat = &mut seats.apps[place];
    read_last(rt, alloc, shared, seat, handle)
}

/// What came of the flight.
#[derive(Drop)]
struct Flown {
    guidance: [Ticket; 3],
    thermal: [Ticket; 2],
    ground: [Ticket; 4],
    last: [[u8; LIMITS]; 2],
}

/// Begins both applications, lets all three threads run, and reads the limits once more.
fn fly_over<R: Threads + Wait + Sync>(
    rt: &R,
    alloc: Global,
    shared: &Shared,
    seats: &mut Seats<CalmBank, FirstByte, Core<CalmBank, FirstByte>>,
    rooms: &Rooms,
) -> Result<Flown, Stop>
    requires seats { AreSeats shared.now.service.of (seats.old.ground ∷ seats.old.apps.items) }
    ensures seats { AreSeats shared.now.service.of (seats.new.ground ∷ seats.new.apps.items) }
    ensures shown { IfOk result (λ flown. AreShown shared.now.board flown) }
{
    let guidance = begin_first(rt, alloc, shared, seats)?;
    let thermal = begin_second(rt, alloc, shared, seats)?;
    let ground = read_and_load(rt, alloc, shared, seats, rooms)?;
    let last = [
        read_in_the_end(rt, alloc, shared, seats, 0, GUIDANCE_HANDLE)?,
        read_in_the_end(rt, alloc, shared, seats, 1, THERMAL_HANDLE)?,
    ];
    Ok(Flown {
        guidance,
        thermal,
        ground,
        last,
    })
}

/// Prints what each application read, and the receipts on the board.
fn tell<R: Print + Wait>(rt: &R, board: &Board, flown: &Flown, rooms: &Rooms) -> Result<(), Stop>
    requires shown { AreShown board.now flown.now }
{
    for (place, name) in ["guidance", "thermal"].iter().enumerate() {
        tell_reads(rt, name, *rooms.rooms[place].lock(rt))?;
        tell_limits(rt, name, &flown.last[place])?;
    }
    tell_receipts(rt, "guidance", board, &flown.guidance)?;
    tell_receipts(rt, "thermal", board, &flown.thermal)?;
    tell_receipts(rt, "the ground", board, &flown.ground)
}

/// The whole flight. The service is closed at its end, and gives back the core with all calls in its history.
pub(crate) fn fly<R: AllocGlobal + Print + Threads + Wait + Sync>(rt: &R) -> Result<(), Stop> {
    let alloc = rt.alloc();
    let board = Board::make(alloc)?;
    let rooms = Rooms {
        rooms: [Mutex::new(None), Mutex::new(None)],
    };
    let core = new_core(alloc)?;
    let Ok((service, mut seats)) = Service::open(alloc, core) else {
        return Err(Stop::Memory);
    };
    let shared = Shared { service, board };
    let flown = fly_over(rt, alloc, &shared, &mut seats, &rooms);
    let Shared { service, board } = shared;
    let core = service.close(seats);
    let count = core.history().len();
    let _bank = core.end();
    tell(rt, &board, &flown?, &rooms)?;
    println!(rt; "{count} entries stand in one history")?;
    Ok(())
}
