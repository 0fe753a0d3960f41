//! Why RDATA isn't read.
use thiserror::Error;

/// The fields of the records, from the left, that may be refused.
#[derive(Clone, Copy, Debug, PartialEq, Eq)]
pub enum Field {
    /// The numbers at the front.
    Head,
    /// The signer's name of RRSIG, the next name of NSEC.
    Name,
    /// NSEC3's salt with its length.
    Salt,
    /// NSEC3's next hash with its length.
    Hash,
    /// The type bitmap of NSEC and NSEC3.
    Bitmap,
}

/// Why octets are not a record's RDATA.
#[derive(Debug, Drop, Error)]
pub enum RecordError {
    /// The first field from the left that is not there or is wrong.
    #[error("bad RDATA: {0:?}")]
    BadRdata(Field),
}
