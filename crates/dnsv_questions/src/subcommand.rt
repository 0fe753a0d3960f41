//! The subcommand for a question.
ghost use Rattle.std.specs.Prelude.{◌≡◌};
ghost use Rattle.dnsv_questions.specs.Subcommand as specs;

/// The subcommand for a question: that for its verdict, or the one that says besides why it stands.
pub fn question_word(why: bool) -> &'static str
    ensures { result.now ≡ specs.question_word why }
{
    if why { "explain" } else { "check" }
}
