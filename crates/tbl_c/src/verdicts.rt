//! The questions of a request, and the verdicts that C hands in for them.

ghost use Rattle.std.specs.Prelude.{◌≡◌, ◌≤◌, Some, None, [], ◌∷◌, IfSome, length, slice_get};
ghost use Rattle.desk.specs.Questions.{all_asked, question_of};
ghost use Rattle.tbl_c.specs.Serving.{HandsIn, IsTold};

use crate::told::{Told, copy_out};
use desk::{Question, Questions};
use handed_kit::Answering;
use tbl_core::Engine;
use tbl_fakes::BreakingBank;

/// The question for which no verdict was handed in: the first after so many.
pub(crate) fn open_question(questions: &Questions, answered: usize) -> Option<&Question>
    ensures open { IfSome result (λ q. slice_get (all_asked questions.now) answered ≡ Some (question_of q.now)) }
    ensures none { result ≡ None → length (all_asked questions.now) ≤ answered }
{
    match answered {
        0 => questions.first.as_ref(),
        1 if questions.first.is_some() => questions.second.as_ref(),
        _ => None,
    }
}

/// Has the functions of two questions answer so. If both are of one function, it answers each image with its own verdict.
fn hand_two(
    engine: &mut Engine<BreakingBank, Answering>,
    first: Question,
    second: Question,
    verdict: i32,
    other: i32,
)
    ensures { HandsIn (question_of first ∷ question_of second ∷ []) (verdict ∷ other ∷ []) engine.old engine.new }
{
    engine.hand(second.number, Answering::one(other));
    engine.hand(first.number, Answering::two(first.image, verdict, other));
}

/// Has the functions that are asked answer so.
pub(crate) fn hand_in(
    engine: &mut Engine<BreakingBank, Answering>,
    questions: Questions,
    verdicts: &[i32],
)
    requires enough { length (all_asked questions) ≤ length verdicts.now }
    ensures { HandsIn (all_asked questions) verdicts.now engine.old engine.new }
{
    let Questions { first, second } = questions;
    let Some(first) = first else {
        return;
    };
    match (second, verdicts) {
        (None, [verdict, ..]) => engine.hand(first.number, Answering::one(*verdict)),
        (Some(second), [verdict, other, ..]) => {
            hand_two(engine, first, second, *verdict, *other);
        }
        _ => unreachable!(),
    }
}

/// Gives C the image that has to be judged first, and the function that judges it.
pub(crate) fn tell_question(question: &Question, out: &mut [u8], told: &mut Told)
    ensures number { told.new.number ≡ question.now.number }
    ensures image { IsTold question.now.image.list told.new out.old out.new }
{
    *told = Told {
        length: question.image.bytes().len(),
        number: u32::from(question.number),
    };
    copy_out(question.image.bytes(), 0, out);
}
