ghost use Rattle.std.specs.Prelude.{◌≤◌, ◌<◌, ◌^◌, All};
ghost use Rattle.tbl_kinds.specs.Places.{bank_size};
ghost use Rattle.tbl_outside.specs.declared.validator.KitEntry.{KitEntry as Entry};
ghost use Rattle.tbl_session.specs.Session.{opening_of};
ghost use Rattle.tbl_history.specs.Opening.{Starts};

use std::alloc::Global;
use tbl_core::{Core, StartFault};
use tbl_kinds::Admit;
use tbl_outside::{Back, Bank, KitEntry, Validator};
use validation::Kit;

/// A service at its start, with an empty history, these validation functions, and these lists of spacecraft and processors from
/// which table files may come. An error gives the bank back, if its boot fails or is stopped, or if memory runs out. `serves` says what
/// the service keeps to from then on, whoever plays its requests: `Core::step`, a crew, or a program's own threads.
pub fn start<B: Bank, C: Validator>(
    alloc: Global,
    bank: B,
    kit: Vec<KitEntry<C>>,
    admit: Admit,
) -> Result<Core<B, C>, Back<StartFault, B>>
    requires room { bank_size ≤ B.size bank }
    requires asked { All (λ (e : Entry C). C.asked e.check < 2 ^ 62) kit.items }
    ensures { Starts B.Bank C.verdict (opening_of B.Bank bank kit.items admit) result }
{
    let Ok(kit) = Kit::make(alloc, kit) else {
        return Err(Back {
            cause: StartFault::Memory,
            bank,
        });
    };
    Ok(Core::start(alloc, bank, kit, admit)?)
}
