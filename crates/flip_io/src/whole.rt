// Reading all and writing all.
ghost use Rattle.std.specs.Prelude.{◌≡◌, ◌≤◌, ◌<◌, ◌+◌, length, IfOk, IfSome, OnOk, OnErr, IfErr, IsErr};
ghost use Rattle.std.specs.Io.KnownBytes.{Appends};
ghost use Rattle.flip_io.specs.Causes.{HasCause};
ghost use Rattle.flip_io.specs.Outcomes.{TakesAll, ReadAllCause, ReadAllTakes, AppendsPrefix};
ghost use Rattle.flip_io.specs.declared.whole.ReadAllFault.TheVariants.{Fault, Memory};

use crate::{Failed, Sink, Source};
use std::alloc::{AllocError, Global};

/// Why not all was read.
#[derive(Clone, Copy, Debug, PartialEq, Eq)]
pub enum ReadAllFault {
    /// A read failed.
    Fault,
    /// More bytes were left than the limit, which is given.
    TooLong(usize),
    /// There was no memory for the bytes.
    Memory,
}

impl From<Failed> for ReadAllFault {
    ghost from_gives = { λ _ e. e ≡ Fault };

    fn from(_: Failed) -> Self {
        ReadAllFault::Fault
    }
}

impl From<AllocError> for ReadAllFault {
    ghost from_gives = { λ _ e. e ≡ Memory };

    fn from(_: AllocError) -> Self {
        ReadAllFault::Memory
    }
}

// The most bytes of one read.
const PIECE: usize = 64 * 1024;

/// Reads all bytes up to the end, where they are at most `limit`.
///
/// It asks for one byte above the limit, and no more, to see that there are too many. After an
/// error the source has lost the bytes that were taken.
pub fn read_all<S: Source>(
    alloc: Global,
    source: &mut S,
    limit: usize,
) -> Result<Vec<u8>, ReadAllFault>
    ensures all { IfOk result (λ v. TakesAll (S.left source.old) (S.left source.new) v.items) }
    ensures limit { IfOk result (λ v. length v.items ≤ limit) }
    ensures over { IfSome (S.left source.old) (λ bytes. limit < length bytes → IsErr result) }

    ensures cause { IfErr result (ReadAllCause limit (S.faults source.old) (S.faults source.new) (S.left source.old) (S.left source.new)) }
    ensures taken { IfErr result (ReadAllTakes limit (S.left source.old) (S.left source.new)) }
    ensures later { S.faults source.old ≤ S.faults source.new }
{
    let mut taken = Vec::new(alloc);
    let mut buf = [0u8; PIECE];
    'pieces: loop {
        let room = limit - taken.len();
        let most = room.min(PIECE - 1) + 1;
        let count = source.read(&mut buf[..most])?;
        if count == 0 {
            return Ok(taken);
        }
        if count > room {
            return Err(ReadAllFault::TooLong(limit));
        }
        taken.extend_from_slice(&buf[..count])?;
    }
}

/// Writes all bytes, in as many pieces as the sink makes of them. It takes no memory.
///
/// After an error a prefix of the bytes was written.
pub fn write_all<K: Sink>(sink: &mut K, bytes: &[u8]) -> Result<(), Failed>
    ensures ok { OnOk result (Appends (K.written sink.old) (K.written sink.new) bytes.now) }
    ensures err { OnErr result (AppendsPrefix (K.written sink.old) (K.written sink.new) bytes.now) }
    ensures cause { HasCause (K.faults sink.old) (K.faults sink.new) result }
{
    let mut done = 0;
    while done < bytes.len() {
        done += sink.write(&bytes[done..])?;
    }
    Ok(())
}
