//! A stream at its start.

ghost use Rattle.std.specs.Prelude.{[], IfOk, IfErr};
ghost use Rattle.tbl_core.specs.Service.{core_of};
ghost use Rattle.tbl_history.specs.Serving.{Serves};
ghost use Rattle.tbl_stream.specs.Opening.{Begins, FailsToStart, IsFresh, MayStart, opening_by};

use crate::service::Service;
use crate::stream::Stream;
use tbl_core::{Engine, StartFault};
use tbl_kinds::Admit;
use tbl_outside::{Back, Bank, Validator};
use validation::Kit;

/// An engine at its start, over a bank; or the bank again.
fn start<B: Bank, C: Validator>(
    service: Service<B, C>,
    admit: Admit,
) -> Result<Engine<B, C>, Back<StartFault, B>>
    requires { MayStart B.Bank C.Validator service }
    ensures ok { IfOk result (Begins B.Bank C.verdict (opening_by B.Bank service admit)) }
    ensures err { IfErr result (λ back. FailsToStart B.Bank service.bank back.cause back.bank) }
{
    let Service { alloc, bank, kit } = service;
    let Ok(kit) = Kit::make(alloc, kit) else {
        return Err(Back {
            cause: StartFault::Memory,
            bank,
        });
    };
    Ok(Engine::start(alloc, bank, kit, admit)?)
}

/// A stream before anything was fed, over a service at its start. An error gives the bank back.
pub(crate) fn begin<B: Bank, C: Validator>(
    service: Service<B, C>,
    admit: Admit,
    limit: Option<u32>,
) -> Result<Stream<B, C>, Back<StartFault, B>>
    requires { MayStart B.Bank C.Validator service }
    ensures fresh { IfOk result (IsFresh limit) }
    ensures serves { IfOk result (λ stream. Serves B.Bank C.verdict (opening_by B.Bank service admit) (core_of [] stream.played.engine)) }
    ensures err { IfErr result (λ back. FailsToStart B.Bank service.bank back.cause back.bank) }
{
    let alloc = service.alloc;
    match Stream::make(alloc, start(service, admit)?, limit) {
        Ok(stream) => Ok(stream),
        Err(engine) => Err(Back {
            cause: StartFault::Memory,
            bank: engine.end(),
        }),
    }
}
