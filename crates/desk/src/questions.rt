//! Questions to validation functions, as values.

ghost use Rattle.std.specs.Prelude.{◌≡◌, []};
ghost use Rattle.desk.specs.Questions.{asked, all_asked};

use tbl_kinds::Bytes;

/// A question to a validation function.
#[derive(Drop)]
pub struct Question {
    /// The function's number.
    pub number: u8,
    /// The image that it is to judge.
    pub image: Bytes,
}

/// What a request asks of validation functions, in order.
#[derive(Drop)]
pub struct Questions {
    pub first: Option<Question>,
    /// It is asked only after a first one.
    pub second: Option<Question>,
}

impl Questions {
    /// Nothing is asked.
    pub fn none() -> Questions
        ensures { all_asked result ≡ [] }
    {
        Questions {
            first: None,
            second: None,
        }
    }

    /// One question, or none.
    #[tactic(auto, using(crate::proofs::Asked::one_asked))]
    pub fn only(first: Option<Question>) -> Questions
        ensures { all_asked result ≡ asked first }
    {
        Questions {
            first,
            second: None,
        }
    }
}
