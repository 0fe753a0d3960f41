//! The octets that a request is run over, in place of files.
ghost use Rattle.std.specs.Prelude.{◌≡◌, None, Some};
ghost use Rattle.std.specs.Option.{option_map};
ghost use Rattle.dnsv_files.specs.Files.{AreTold, IsToldBy};
ghost use Rattle.dnssec_check_c.specs.Asked.{judged_files, listed_files, shown_files, timeline_files};
ghost use Rattle.dnssec_check_c.specs.Octets.{files_of, given_octets};

use crate::options::Options;
use dnsv_files::Inputs;
use dnsv_message::Counted;

/// The octets in the place of each file, where that is given.
#[derive(Clone, Copy)]
pub struct Octets<'a> {
    pub capture: &'a [u8],
    pub anchors: Option<&'a [u8]>,
    pub statements: Option<&'a [u8]>,
    pub answers: Option<&'a [u8]>,
    pub keys: Option<&'a [u8]>,
    pub macs: Option<&'a [u8]>,
    pub questions: Option<&'a [u8]>,
}

impl<'a> Octets<'a> {
    /// Those of messages that are shown.
    pub fn shown(capture: &'a [u8]) -> Octets<'a>
        ensures { files_of result ≡ shown_files capture.now }
    {
        Octets {
            capture,
            anchors: None,
            statements: None,
            answers: None,
            keys: None,
            macs: None,
            questions: None,
        }
    }

    /// Those of which something is listed.
    pub fn listed(options: &Options, capture: &'a [u8], verified: &'a [u8]) -> Octets<'a>
        ensures { files_of result ≡ listed_files options.now capture.now verified.now }
    {
        Octets {
            capture,
            anchors: None,
            statements: given(verified, options.has_statements()),
            answers: None,
            keys: None,
            macs: None,
            questions: None,
        }
    }

    /// Those by which questions are judged.
    pub fn judged(
        options: &Options,
        capture: &'a [u8],
        anchors: &'a [u8],
        verified: &'a [u8],
        keys: &'a [u8],
        macs: &'a [u8],
        questions: Option<&'a [u8]>,
    ) -> Octets<'a>
        ensures { files_of result ≡ judged_files options.now capture.now anchors.now verified.now keys.now macs.now
            (option_map (λ each. each.now) questions.entry) }
    {
        Octets {
            capture,
            anchors: Some(anchors),
            statements: given(verified, options.has_statements()),
            answers: given(verified, options.has_answers()),
            keys: given(keys, options.has_keys),
            macs: given(macs, options.reads_macs()),
            questions,
        }
    }

    /// Those by which a question is judged at each moment of a range.
    pub fn over_time(
        options: &Options,
        capture: &'a [u8],
        anchors: &'a [u8],
        verified: &'a [u8],
    ) -> Octets<'a>
        ensures { files_of result ≡ timeline_files options.now capture.now anchors.now verified.now }
    {
        Octets {
            capture,
            anchors: Some(anchors),
            statements: given(verified, options.has_statements()),
            answers: given(verified, options.has_answers()),
            keys: None,
            macs: None,
            questions: None,
        }
    }

    /// Readers of the octets.
    pub fn readers(&self) -> Inputs<&'a [u8]>
        ensures { AreTold (λ octets. Some octets.now) result (files_of self.now) }
    {
        Inputs {
            capture: Counted::new(self.capture),
            anchors: reader(self.anchors),
            statements: reader(self.statements),
            answers: reader(self.answers),
            keys: reader(self.keys),
            macs: reader(self.macs),
            questions: reader(self.questions),
        }
    }
}

/// The octets, where they are given.
fn given(octets: &[u8], is_given: bool) -> Option<&[u8]>
    ensures { option_map (λ each. each.now) result ≡ given_octets octets.now is_given }
{
    if is_given { Some(octets) } else { None }
}

/// A reader of octets that may be given.
fn reader(octets: Option<&[u8]>) -> Option<Counted<&[u8]>>
    ensures { IsToldBy (λ octets. Some octets.now) result (option_map (λ each. each.now) octets.entry) }
{
    match octets {
        Some(octets) => Some(Counted::new(octets)),
        None => None,
    }
}
