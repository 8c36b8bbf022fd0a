//! Laws of the commands: what is read is spelled so, and what was written is read again.

ghost use Rattle.std.specs.Prelude.{◌≡◌, ℕ, List, length, Ok};
ghost use Rattle.tbl_kinds.specs.Fields.{AreBytes};
ghost use Rattle.tbl_kinds.specs.GroundCommands.{Form, GroundCommand, IsGroundCommand, SpellsCommand, by_form, command_in, command_bytes};
ghost use Rattle.cmd_packets.specs.Alike.{IsReadAs, AreAlike};

/// Every packet of a command is read as that command.
pub fn commands_are_read()
    ensures { (bytes : List ℕ) (command : GroundCommand) → SpellsCommand bytes command → command_in bytes ≡ Ok command }
{}

/// Nothing else is read as a command.
pub fn what_is_read_is_a_command()
    ensures { (bytes : List ℕ) (command : GroundCommand) → AreBytes bytes → command_in bytes ≡ Ok command → SpellsCommand bytes command }
{}

/// A written command is a packet of that command, and is read again as it, whatever its sequence count.
pub fn written_commands_are_read()
    ensures { (count : ℕ) (command : GroundCommand) → IsGroundCommand command → IsReadAs command (command_bytes count command) }
{}

/// What a packet reads as, and why it is refused, depends on its first flaw, its id, the low 7 bits of its code byte and
/// its payload; of a housekeeping request not on the code; and of a payload on its length, and on its number and names.
pub fn nothing_else_is_looked_at()
    ensures packet { (a b : List ℕ) → AreAlike a b → command_in a ≡ command_in b }
    ensures payload { (form : Form) (a b : List ℕ) → length a ≡ length b → form.reads a ≡ form.reads b → by_form form a ≡ by_form form b }
{}
