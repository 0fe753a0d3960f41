//! How often a verifier is asked, which no clause can say.
use bumpalo::Bump;
use dnsv_canonical::Capture;
use dnsv_chain::Anchors;
use dnsv_explain::explain;
use dnsv_message::Message;
use dnsv_names::{Count, Name, RecordType};
use dnsv_verdict::validate;
use dnsv_verifier::{Answer, Entry, Verifier, ask_all};
use std::alloc::Global;
use std::cell::Cell;
use std::test::Fail;

// The DNSKEY RRset of `example.` and its signature, and an A record of `host.example.` and its signature.
const KEYS: &[u8] =
    b"\x00\x01\x84\x00\x00\x01\x00\x02\x00\x00\x00\x00\x07example\x00\x00\x30\x00\x01\
\xc0\x0c\x00\x30\x00\x01\x00\x00\x0e\x10\x00\x07\x01\x00\x03\x0d\x01\x02\x03\
\xc0\x0c\x00\x2e\x00\x01\x00\x00\x0e\x10\x00\x1c\x00\x30\x0d\x01\x00\x00\x0e\x10\
\x00\x00\x07\xd0\x00\x00\x03\xe8\x08\x0f\x07example\x00\xcc";

const HOST: &[u8] =
    b"\x00\x02\x84\x00\x00\x01\x00\x02\x00\x00\x00\x00\x04host\x07example\x00\x00\x01\x00\x01\
\xc0\x0c\x00\x01\x00\x01\x00\x00\x00\x05\x00\x04\xc0\x00\x02\x01\
\xc0\x0c\x00\x2e\x00\x01\x00\x00\x00\x05\x00\x1d\x00\x01\x0d\x02\x00\x00\x0e\x10\
\x00\x00\x07\xd0\x00\x00\x03\xe8\x08\x0f\x07example\x00\xaa\xbb";

const ANCHOR: &[u8] = b"KEY example. 256 3 13 AQID\n";

/// Knows nothing, and counts how often it is asked.
#[derive(Drop)]
struct Counting {
    calls: Cell<u64>,
}

impl Verifier for Counting {
    ghost use Rattle.dnsv_verifier.specs.declared.answer.Answer.TheVariants.{Unknown};

    ghost meaning = { λ _ _. Unknown };

    fn answer(&self, _entry: &Entry<'_>) -> Answer {
        self.calls.set(self.calls.get().saturating_add(1));
        Answer::Unknown
    }
}

/// The two messages.
fn evidence<'b>(alloc: Global, bump: &'b Bump) -> Result<Capture<'b>, Fail> {
    let mut capture = Capture::new(alloc, bump);
    capture.add(&Message::decode(alloc, KEYS)?)?;
    capture.add(&Message::decode(alloc, HOST)?)?;
    Ok(capture)
}

/// How often it is asked for the verdict on the address of the host, and where that is wanted, for why it stands too.
fn calls(alloc: Global, why: bool) -> Result<u64, Fail> {
    let bump = Bump::new(alloc);
    let capture = evidence(alloc, &bump)?;
    let anchors = Anchors::parse(alloc, &bump, ANCHOR)?;
    calls_for(alloc, &bump, &capture, &anchors, why)
}

/// How often it is asked about the capture.
fn calls_for(
    alloc: Global,
    bump: &Bump,
    capture: &Capture<'_>,
    anchors: &Anchors<'_>,
    why: bool,
) -> Result<u64, Fail> {
    let (host, address) = (Name::parse(b"host.example.")?, RecordType(1));
    let unknown = Counting {
        calls: Cell::new(0),
    };
    if why {
        explain(
            alloc, bump, capture, anchors, 1500, &unknown, &host, address,
        )?;
    } else {
        validate(
            alloc, bump, capture, anchors, 1500, &unknown, &host, address,
        )?;
    }
    Ok(unknown.calls.get())
}

/// Whether it is asked once for each of the two entries, though the verdict depends on its answers, and no more for why.
pub fn is_asked_once_for_each(alloc: Global) -> Result<bool, Fail> {
    Ok(calls(alloc, false)? == 2 && calls(alloc, true)? == 2)
}

/// Whether it is asked so often for the table at the moment, and the count grows by as many.
fn is_asked(
    alloc: Global,
    bump: &Bump,
    capture: &Capture<'_>,
    moment: u64,
    times: u64,
) -> Result<bool, Fail> {
    let mut count = Count::new();
    let unknown = Counting {
        calls: Cell::new(0),
    };
    let table = ask_all(alloc, bump, capture, moment, &unknown, &mut count)?;
    let told = table.moment() == moment && count.value() == times;
    Ok(told && unknown.calls.get() == times)
}

/// Whether a table asks it once for each entry that is valid at the moment, also where a message was added twice.
pub fn is_asked_once_by_a_table(alloc: Global) -> Result<bool, Fail> {
    let bump = Bump::new(alloc);
    let mut capture = evidence(alloc, &bump)?;
    let once = is_asked(alloc, &bump, &capture, 1500, 2)?
        && is_asked(alloc, &bump, &capture, 2001, 0)?;
    capture.add(&Message::decode(alloc, HOST)?)?;
    Ok(once && is_asked(alloc, &bump, &capture, 1500, 2)?)
}
