//! Several verifiers as one.
ghost use Rattle.std.specs.Prelude.{◌≡◌, map};
ghost use Rattle.dnsv_verifier.specs.Panel.{joint_answer};
ghost use Rattle.dnsv_verifier.specs.declared.entry.Entry.{Entry};

use crate::answer::Answer;
use crate::entry::Entry;
use crate::verifier::Verifier;

/// Verifiers that are asked together.
#[derive(Drop)]
pub struct Panel {
    /// The members, which are all asked.
    pub members: Vec<Box<dyn Verifier>>,
}

impl Panel {
    /// A panel of these members.
    pub fn new(members: Vec<Box<dyn Verifier>>) -> Panel
        ensures { result.members.items ≡ members.items }
    {
        Panel { members }
    }
}

impl Verifier for Panel {
    ghost meaning = { λ panel entry. joint_answer
        (map (λ member. (Verifier-box member).meaning member.value entry) panel.members.items) };

    fn answer(&self, entry: &Entry<'_>) -> Answer {
        let mut joint = Answer::Unknown;
        for member in &self.members {
            joint = joint.joined(answer_of(member, entry));
        }
        joint
    }
}

/// What one member says.
fn answer_of(member: &Box<dyn Verifier>, entry: &Entry<'_>) -> Answer
    ensures { result ≡ meaning member.now entry.now }
{
    member.answer(entry)
}
