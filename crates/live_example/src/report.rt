//! What the program prints.

ghost use Rattle.live_example.specs.Flights.{AreOfBoard};

use crate::applications::{LIMITS, Reads};
use crate::shared::Stop;
use tbl_live::{Board, Ticket};

/// Prints how often an application read the limits.
pub(crate) fn tell_reads<R: Print>(rt: &R, name: &str, reads: Option<Reads>) -> Result<(), Stop> {
    match reads {
        Some(Reads { whole, mixed }) => {
            println!(rt;
                "{name} read one whole image {whole} times, and a mix of two {mixed} times"
            )?;
        }
        None => println!(rt; "{name} stopped")?,
    }
    Ok(())
}

/// Prints the limits that an application read last.
pub(crate) fn tell_limits<R: Print>(rt: &R, name: &str, limits: &[u8; LIMITS]) -> Result<(), Stop> {
    println!(rt; "{name} reads in the end {limits:?}")?;
    Ok(())
}

/// Prints who called and with which status, by the receipts on the board.
pub(crate) fn tell_receipts<R: Print>(
    rt: &R,
    name: &str,
    board: &Board,
    tickets: &[Ticket],
) -> Result<(), Stop>
    requires shown { AreOfBoard board.now tickets.now }
{
    for ticket in tickets {
        let receipt = board.at(ticket);
        let actor = receipt.actor().number();
        println!(rt; "{name}, actor {actor}: status {}", receipt.status().0)?;
    }
    Ok(())
}
