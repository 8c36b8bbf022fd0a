//! Validation functions for one request, whose verdicts are known before it is played.

ghost use Rattle.std.specs.Prelude.{◌≡◌, ℕ, List, None, Some};
ghost use Rattle.handed_kit.specs.Answering.{mute, one_verdict, two_verdicts, first_of, is_first};

use std::marker::Model;
use tbl_kinds::Bytes;
use tbl_outside::Validator;

/// What a validation function answers for which no verdict was handed in. It refuses the image.
const NOT_HANDED_IN: i32 = i32::MIN;

/// A validation function of an application in C, during one request: it answers with the verdicts that were handed in for it.
#[derive(Drop)]
pub struct Answering {
    /// The image that is asked about first, where two are. None: each image has the same verdict.
    first: Option<Bytes>,
    /// The verdict on that one.
    verdict: i32,
    /// The verdict on any other image.
    other: i32,
    asked: u64,
}

impl Model for Answering {
    ghost use Rattle.std.specs.Prelude.{ℕ, List};
    ghost use Rattle.handed_kit.specs.Answering.{Spoken, first_of};

    ghost Value = { Spoken };

    ghost view = { λ it. record { first = first_of it.first; verdict = it.verdict; other = it.other; asked = it.asked } };
}

impl Answering {
    /// A function that wasn't asked yet, and for which nothing was handed in.
    pub fn mute() -> Answering
        ensures { result ≡ mute }
    {
        Answering::one(NOT_HANDED_IN)
    }

    /// A function that wasn't asked yet, and gives this verdict on whatever image.
    pub fn one(verdict: i32) -> Answering
        ensures { result ≡ one_verdict verdict }
    {
        Answering {
            first: None,
            verdict,
            other: verdict,
            asked: 0,
        }
    }

    /// A function that wasn't asked yet, with its verdict on this image and that on any other.
    pub fn two(first: Bytes, verdict: i32, other: i32) -> Answering
        ensures { result ≡ two_verdicts first.list verdict other }
    {
        Answering {
            first: Some(first),
            verdict,
            other,
            asked: 0,
        }
    }
}

/// Whether this is the image that is asked about first.
fn is_first(first: &Option<Bytes>, image: &[u8]) -> bool
    ensures { result ≡ is_first (first_of first.now) image.now }
{
    match first {
        Some(first) => first.bytes() == image,
        None => false,
    }
}

impl Validator for Answering {
    ghost use Rattle.handed_kit.specs.Answering.{answer_of};

    ghost verdict = { answer_of };

    ghost asked = { λ it. it.asked };

    fn validate(&mut self, image: &[u8]) -> i32 {
        self.asked += 1;
        if is_first(&self.first, image) {
            self.verdict
        } else {
            self.other
        }
    }
}
