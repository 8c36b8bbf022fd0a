ghost use Rattle.session_records.specs.Laws.{SpellingsStandApart, SpellingsAreOfOneRequest, RefusedBytesBeginNone, BadStaysBad, ShortIsBelowTheLongest};
ghost use Rattle.session_records.specs.Laws.{ReadInOrderIsTheLongest, InputsHaveOneReading};

/// No record's spelling is a proper prefix of another's.
pub fn spellings_stand_apart()
    ensures { SpellingsStandApart }
{}

/// A spelling is of one request of one actor: any two are equal, but for the room reserved after their bytes.
pub fn a_spelling_is_of_one_request()
    ensures { SpellingsAreOfOneRequest }
{}

/// Where the bytes are none, short or bad, no record's spelling begins them.
pub fn refused_bytes_begin_no_record()
    ensures { RefusedBytesBeginNone }
{}

/// Bad bytes stay bad, whatever follows.
pub fn bad_stays_bad()
    ensures { BadStaysBad }
{}

/// Short bytes are fewer than the longest record has.
pub fn short_is_below_the_longest()
    ensures { ShortIsBelowTheLongest }
{}

/// The records that were read one after another, up to a rest from which no further one is read, are the longest list
/// of records at the front of the input.
pub fn read_in_order_is_the_longest_list()
    ensures { ReadInOrderIsTheLongest }
{}

/// An input has one list of records: any two have the same spellings.
pub fn an_input_has_one_reading()
    ensures { InputsHaveOneReading }
{}
