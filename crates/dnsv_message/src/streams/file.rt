//! Files, as readers give them.
ghost use Rattle.std.specs.Prelude.{◌≡◌, ◌<◌, ◌≤◌, length, is_err, vec_len, IfErr, IfOk, IfSome, IsErrOf};
ghost use Rattle.std.specs.Io.{ReadsAtMost};
ghost use Rattle.std.specs.Io.KnownBytes.{ReadConsumes};
ghost use Rattle.dnsv_message.specs.Streams.Counted.{count_after, failures_of, inner_of};
ghost use Rattle.dnsv_message.specs.Streams.Frames.{file_limit};
ghost use Rattle.dnsv_message.specs.ReadError.{IsFileError};
ghost use Rattle.dnsv_message.specs.Streams.{ReadsStream};

use crate::FILE_LIMIT;
use crate::errors::ReadError;
use crate::streams::counted::Counted;
use std::alloc::Global;
use std::io::Read;

/// How many octets are read at a time at most.
pub(crate) const PIECE_LIMIT: usize = 4_096;

/// All octets of a file.
///
/// The first fault that is met is answered, and nothing is read after it: a reader that fails is
/// [`ReadError::Read`], and an octet past [`FILE_LIMIT`] [`ReadError::TooLong`].
pub fn read_all<R: Read>(alloc: Global, reader: &mut Counted<R>) -> Result<Vec<u8>, ReadError>
    // What the octets decide, where they are known.
    ensures octets { IfOk result (λ octets. IfSome (R.remaining (inner_of reader.old)) (λ file. octets.items ≡ file)) }
    ensures within { IfOk result (λ octets. vec_len octets ≤ file_limit) }
    ensures too_long { IsErrOf result ReadError.TooLong →
        IfSome (R.remaining (inner_of reader.old)) (λ file. file_limit < length file) }
    ensures stream { ReadsStream (λ octets. length octets ≤ file_limit)
        (R.remaining (inner_of reader.old)) (R.remaining (inner_of reader.new))
        (failures_of reader.old) (failures_of reader.new) result }
    ensures only { IfErr result IsFileError }
{
    let mut buffer = vec![in alloc; 0; PIECE_LIMIT]?;
    let piece = buffer.as_mut_slice();
    let mut octets = Vec::new(alloc);
    loop {
        let count = read_piece(reader, piece)?;
        if count == 0 {
            break;
        }
        if count > FILE_LIMIT - octets.len() {
            return Err(ReadError::TooLong);
        }
        octets.extend_from_slice(&piece[..count])?;
    }
    Ok(octets)
}

// Reads once. A read that fails is not tried again.
pub(crate) fn read_piece<R: Read>(
    reader: &mut Counted<R>,
    piece: &mut [u8],
) -> Result<usize, ReadError>
    ensures bound { ReadsAtMost result piece.new }
    ensures bytes { ReadConsumes (R.remaining (inner_of reader.old)) (R.remaining (inner_of reader.new))
        result piece.new }
    ensures failures { failures_of reader.new ≡ count_after (failures_of reader.old) (is_err result) }
    ensures only { IfErr result (λ error. error ≡ ReadError.Read) }
{
    Ok(reader.read(piece)?)
}
