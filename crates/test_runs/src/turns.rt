//! Turns of a crew without a thread.

ghost use Rattle.std.specs.Prelude.{◌≡◌, ◌≤◌, ◌+◌, [], false, length, IfOk, OnOk};
ghost use Rattle.tbl_kinds.specs.Records.{record_limit};
ghost use Rattle.tbl_kinds.specs.Requests.{Fits};
ghost use Rattle.tbl_session.specs.Actors.{actor_count};
ghost use Rattle.tbl_crew.specs.Scripts.{request_count, AllFit};

use crate::feeding::service;
use std::alloc::Global;
use tbl_core::Core;
use tbl_crew::{Crew, Scripts, Turn};
use tbl_kinds::{Actor, Memory, Name20, Request};
use tbl_outside::{Bank, Validator};
use test_tables::{CaseFault, Row, same_text};

/// A name in its field of 20 bytes.
fn name_of(first: u8) -> Name20 {
    let mut field = [0; 20];
    field[0] = first;
    Name20::of(&field)
}

/// Scripts without a request.
fn no_scripts(alloc: Global) -> Result<Scripts, Memory>
    ensures actors { IfOk result (λ scripts. length scripts ≡ actor_count) }
    ensures fit { IfOk result AllFit }
    ensures none { IfOk result (λ scripts. request_count scripts ≡ 0) }
{
    Scripts::make(alloc)
}

/// Puts a request last that may come from its actor.
fn ask(scripts: &mut Scripts, actor: Actor, request: Request) -> Result<(), Memory>
    requires actors { length scripts.old ≡ actor_count }
    requires fit { AllFit scripts.old }
    requires may_ask { Fits actor request }
    ensures actors { OnOk result (length scripts.new ≡ actor_count) }
    ensures fit { OnOk result (AllFit scripts.new) }
    ensures count { OnOk result (request_count scripts.new ≡ request_count scripts.old + 1) }
{
    scripts.push(actor, request)?;
    Ok(())
}

/// Applications 1 and 2 start.
fn two_starts(alloc: Global) -> Result<Scripts, Memory>
    ensures fit { IfOk result AllFit }
    ensures few { IfOk result (λ scripts. request_count scripts ≤ record_limit) }
{
    let mut scripts = no_scripts(alloc)?;
    ask(
        &mut scripts,
        Actor::App(1),
        Request::Start {
            name: name_of(b'A'),
        },
    )?;
    ask(
        &mut scripts,
        Actor::App(2),
        Request::Start {
            name: name_of(b'B'),
        },
    )?;
    Ok(scripts)
}

/// The word for what came of a turn.
fn word_of(turn: &Turn) -> &'static str {
    match turn {
        Turn::Played => "Played",
        Turn::Pinned(_) => "Pinned",
        Turn::PinMemory => "PinMemory",
        Turn::Ended => "Ended",
        Turn::Done => "Done",
    }
}

/// What two turns of application 1 come to, and how many entries stand after them.
fn two_turns<B: Bank, C: Validator>(crew: &mut Crew<B, C>) -> ([&'static str; 2], usize) {
    let first = crew.turn(1);
    let second = crew.turn(1);
    (
        [word_of(&first), word_of(&second)],
        crew.core().history().len(),
    )
}

/// Whether a crew ends without a fault over a live service, whose one entry is of application 1.
fn ends_well<B: Bank, C: Validator>(crew: Crew<B, C>) -> bool {
    let (core, fault) = crew.end();
    let is_one = matches!(core.history(), [entry] if entry.actor == Actor::App(1));
    let is_live = core.is_live();
    let _bank = core.end();
    is_one && fault.is_none() && is_live
}

/// Two turns of application 1, in words: what they come to, how many entries stand after them, and whether the crew ends well.
fn play_turns<B: Bank, C: Validator>(
    alloc: Global,
    core: Core<B, C>,
    scripts: Scripts,
) -> Result<String, CaseFault>
    requires live { core.state.ended ≡ false }
    requires empty { core.entries ≡ [] }
    requires fits { AllFit scripts }
    requires few { request_count scripts ≤ record_limit }
{
    let Ok(mut crew) = Crew::open(alloc, core, scripts) else {
        return Err(CaseFault::Memory);
    };
    let ([first, second], count) = two_turns(&mut crew);
    let is_well = ends_well(crew);
    Ok(format!(in alloc; "[{first}, {second}] {count} {is_well}")?)
}

/// Plays two turns of application 1, where applications 1 and 2 ask to start, and compares what they come to.
pub(crate) fn try_turns(row: &Row) -> Result<u32, CaseFault> {
    let scripts = two_starts(row.alloc())?;
    let core = service(row.alloc())?;
    let told = play_turns(row.alloc(), core, scripts)?;
    same_text(told, row.text(1)?)?;
    Ok(1)
}
