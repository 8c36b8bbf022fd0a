//! Laws of the layout: what is written is read again, and whatever the bytes are, the blocks can be there together.

ghost use Rattle.cds_layout.specs.Laws.{EntriesAreRead, EntriesFill, HeadsFill, AllCanBeTogether, FrontTells, RestoresAreShort, CopiesAreShort, ReservationsAreShort, DeletesAreShort, NoMoreAreMade, BootsOnlyRead};

/// A written entry is read as the block that it was written for.
pub fn written_entries_are_read()
    ensures { EntriesAreRead }
{}

/// What is written fills its place.
pub fn written_parts_fill_their_places()
    ensures entry { EntriesFill }
    ensures head { HeadsFill }
{}

/// Whatever the bytes of a bank are, each block of its directory lies in the bank after the directory, and no two of them
/// have a byte, or kind and name, in common.
pub fn blocks_can_be_there_together()
    ensures { AllCanBeTogether }
{}

/// The directory depends on the first bytes of a bank alone.
pub fn directory_stands_in_the_first_bytes()
    ensures { FrontTells }
{}

/// Each list of bank calls that one call of the store makes has at most four, and no call makes more than its list has,
/// done or broken off. Only a boot's list is as long as there are stray gates, and in a store of the first version blocks.
pub fn a_call_asks_at_most_four_times()
    ensures restore { RestoresAreShort }
    ensures copy { CopiesAreShort }
    ensures reserve { ReservationsAreShort }
    ensures delete { DeletesAreShort }
    ensures made { NoMoreAreMade }
{}

/// A boot after a reset of the processor only reads, where the bank is live, not of the first version, and each open gate is
/// that of a block.
pub fn a_boot_without_strays_only_reads()
    ensures { BootsOnlyRead }
{}
