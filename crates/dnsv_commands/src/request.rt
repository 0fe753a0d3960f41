//! What the program is asked to do.
ghost use Rattle.std.specs.Prelude.{◌≡◌};
ghost use Rattle.std.specs.Option.{option_map};
ghost use Rattle.dnsv_commands.specs.Paths.{anchors_of, answers_of, capture_of, keys_of, macs_of, questions_of, statements_of};

use dnsv_names::RecordType;
use dnsv_questions::{Format, Moment};

/// What is asked about the evidence.
#[derive(Debug, Drop)]
pub enum Asking {
    /// One question.
    One {
        /// The name that is asked for, as text.
        name: String,
        /// The type that is asked for.
        rtype: RecordType,
    },
    /// Each question of a file.
    Each {
        /// The path of the file of questions.
        questions: String,
    },
}

/// How entries that a verifier still has to check are listed.
#[derive(Clone, Copy, Debug)]
pub enum Form {
    /// Each with all its octets.
    Whole,
    /// Each octet of keys, records and signatures once.
    Compact,
}

/// What the list of a moment has.
#[derive(Clone, Copy, Debug)]
pub enum Listing {
    /// The signatures that a verifier still has to check.
    Todo(Form),
    /// The signed octets of each signature of each RRset. No statements are read then.
    All,
}

/// By what it is known which signatures are good.
#[derive(Debug, Drop)]
pub enum Known {
    /// By statements, where the path of a file of these is given.
    Statements(Option<String>),
    /// By answers by number, whose file has this path.
    Answers(String),
}

/// What the program is asked to do.
#[derive(Debug, Drop)]
pub enum Request {
    /// Show every message with its questions and records.
    Show {
        /// The path of the file of captured messages.
        capture: String,
    },
    /// List the signatures that a verifier still has to check at a moment, or the signed octets of all.
    List {
        /// The path of the file of captured messages.
        capture: String,
        moment: Moment,
        /// The path of the file of statements.
        statements: Option<String>,
        listing: Listing,
        /// How the text is written.
        format: Format,
    },
    /// List the signatures that a verifier still has to check for the moments of a range.
    ListRange {
        /// The path of the file of captured messages.
        capture: String,
        /// The first moment.
        from: Moment,
        /// The last moment.
        to: Moment,
        /// The path of the file of statements.
        statements: Option<String>,
        form: Form,
        /// How the text is written.
        format: Format,
    },
    /// Say what the evidence proves of a question at each moment of a range.
    Timeline {
        /// The path of the file of captured messages.
        capture: String,
        /// The path of the file of trust anchors.
        anchors: String,
        /// The first moment.
        from: Moment,
        /// The last moment.
        to: Moment,
        /// The name that is asked for, as text.
        name: String,
        /// The type that is asked for.
        rtype: RecordType,
        known: Known,
        /// Tell moments apart by the kinds of their verdicts alone.
        kinds: bool,
        /// How the text is written.
        format: Format,
    },
    /// Say what the evidence proves of a question, or of each of many, and why that stands.
    Check {
        /// The path of the file of captured messages.
        capture: String,
        /// The path of the file of trust anchors.
        anchors: String,
        moment: Moment,
        asking: Asking,
        known: Known,
        /// The path of the file of keys, by which the messages were signed.
        keys: Option<String>,
        /// The path of the file of the MACs of requests. It is read where keys are.
        macs: Option<String>,
        /// How the text is written.
        format: Format,
        /// Say besides why the verdict stands.
        why: bool,
    },
}

impl Request {
    /// The path of the file of captured messages.
    pub fn capture(&self) -> &str
        ensures { result.now ≡ capture_of self.now }
    {
        match self {
            Request::Show { capture }
            | Request::List { capture, .. }
            | Request::ListRange { capture, .. }
            | Request::Timeline { capture, .. }
            | Request::Check { capture, .. } => capture.as_str(),
        }
    }

    /// The path of the file of trust anchors, where one is read.
    pub fn anchors(&self) -> Option<&str>
        ensures { option_map (λ path. path.now) result ≡ anchors_of self.now }
    {
        match self {
            Request::Check { anchors, .. } | Request::Timeline { anchors, .. } => {
                Some(anchors.as_str())
            }
            _ => None,
        }
    }

    /// The path of the file of statements, where one is read.
    pub fn statements(&self) -> Option<&str>
        ensures { option_map (λ path. path.now) result ≡ statements_of self.now }
    {
        match self {
            Request::List {
                statements: Some(path),
                listing: Listing::Todo(_),
                ..
            }
            | Request::ListRange {
                statements: Some(path),
                ..
            }
            | Request::Timeline {
                known: Known::Statements(Some(path)),
                ..
            }
            | Request::Check {
                known: Known::Statements(Some(path)),
                ..
            } => Some(path.as_str()),
            _ => None,
        }
    }

    /// The path of the file of answers, where one is read.
    pub fn answers(&self) -> Option<&str>
        ensures { option_map (λ path. path.now) result ≡ answers_of self.now }
    {
        match self {
            Request::Timeline {
                known: Known::Answers(path),
                ..
            }
            | Request::Check {
                known: Known::Answers(path),
                ..
            } => Some(path.as_str()),
            _ => None,
        }
    }

    /// The path of the file of keys, where one is read.
    pub fn keys(&self) -> Option<&str>
        ensures { option_map (λ path. path.now) result ≡ keys_of self.now }
    {
        match self {
            Request::Check {
                keys: Some(path),
                ..
            } => Some(path.as_str()),
            _ => None,
        }
    }

    /// The path of the file of the MACs of requests, where one is read: never without keys.
    pub fn macs(&self) -> Option<&str>
        ensures { option_map (λ path. path.now) result ≡ macs_of self.now }
    {
        match self {
            Request::Check {
                keys: Some(_),
                macs: Some(path),
                ..
            } => Some(path.as_str()),
            _ => None,
        }
    }

    /// The path of the file of questions, where one is read.
    pub fn questions(&self) -> Option<&str>
        ensures { option_map (λ path. path.now) result ≡ questions_of self.now }
    {
        match self {
            Request::Check {
                asking: Asking::Each { questions },
                ..
            } => Some(questions.as_str()),
            _ => None,
        }
    }
}
