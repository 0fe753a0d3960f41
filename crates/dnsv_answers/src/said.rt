//! One line of a file of answers, behind the heading.
ghost use Rattle.std.specs.Prelude.{◌≡◌, MatchOption};
ghost use Rattle.dnsv_answers.specs.AnswerFile.{IsNoAnswer, answer_text};

use dnsv_names::Line;
use dnsv_verifier::Answer;

/// An answer, with the number of its line.
#[derive(Clone, Copy, Debug)]
pub struct SaidAnswer {
    pub line: usize,
    pub answer: Answer,
}

/// The answer that a line says, `None` where it says none.
pub(crate) fn answer_of(line: &Line) -> Option<Answer>
    ensures { MatchOption result (IsNoAnswer line.now) (λ answer. line.now.octets ≡ answer_text answer) }
{
    match line.octets() {
        b"good" => Some(Answer::Valid),
        b"bad" => Some(Answer::Invalid),
        b"-" => Some(Answer::Unknown),
        _ => None,
    }
}
