ghost use Rattle.std.specs.Prelude.{◌≡◌, ◌<◌, length, IfOk};
ghost use Rattle.n1ql_value.specs.Limits.{max_input_bytes};
ghost use Rattle.gsi_main.specs.Faults.{Rose};
ghost use Rattle.gsi_main.specs.Reading.{TookPiece, ReadWhole, ReadPast};
ghost use Rattle.gsi_main.specs.declared.reading.Unread.TheVariants.{Fault, Memory};

use crate::source::Source;
use n1ql_value::Failed;
use n1ql_value::limits::MAX_INPUT_BYTES;
use std::alloc::{AllocError, Global};

const PIECE: usize = 65_536;

/// Why an input was not read to its end.
#[derive(Clone, Copy, Debug, PartialEq, Eq)]
pub(crate) enum Unread {
    Fault,
    TooLarge,
    Memory,
}

impl From<AllocError> for Unread {
    ghost from_gives = { λ _ e. e ≡ Memory };

    fn from(_error: AllocError) -> Unread {
        Unread::Memory
    }
}

impl From<Failed> for Unread {
    ghost from_gives = { λ _ e. e ≡ Fault };

    fn from(_error: Failed) -> Unread {
        Unread::Fault
    }
}

/// Reads the source to its end, or one byte past the limit.
pub(crate) fn read_input<S: Source>(alloc: Global, source: &mut S) -> Result<Vec<u8>, Unread>
    ensures whole { IfOk result (λ bytes. ReadWhole max_input_bytes (S.left source.old) (S.left source.new)
        (S.faults source.old) (S.faults source.new) bytes.items) }
    ensures fault { result ≡ Err Unread.Fault → Rose (S.faults source.old) (S.faults source.new) }
    ensures past { result ≡ Err Unread.TooLarge → ReadPast max_input_bytes (S.left source.old) (S.left source.new)
        (S.faults source.old) (S.faults source.new) }
    ensures memory { result ≡ Err Unread.Memory → S.faults source.new ≡ S.faults source.old }
{
    let mut bytes = Vec::new(alloc);
    let mut piece = zeros(alloc, PIECE)?;
    'pieces: while bytes.len() <= MAX_INPUT_BYTES {
        let room = PIECE.min(MAX_INPUT_BYTES + 1 - bytes.len());
        let count = read_piece(source, &mut piece[..room], &mut bytes)?;
        if count == 0 {
            return Ok(bytes);
        }
    }
    Err(Unread::TooLarge)
}

fn zeros(alloc: Global, len: usize) -> Result<Vec<u8>, AllocError>
    ensures { IfOk result (λ v. length v.items ≡ len) }
{
    vec![in alloc; 0u8; len]
}

/// Reads the next bytes through the buffer and puts them behind the others; none at the end of the input.
fn read_piece<S: Source>(
    source: &mut S,
    piece: &mut [u8],
    bytes: &mut Vec<u8>,
) -> Result<usize, Unread>
    requires { 0 < length piece.old }
    ensures took { IfOk result (TookPiece (length piece.old) (S.left source.old) (S.left source.new)
        (S.faults source.old) (S.faults source.new) bytes.old.items bytes.new.items) }
    ensures fault { result ≡ Err Unread.Fault → Rose (S.faults source.old) (S.faults source.new) }
    ensures within { ¬ (result ≡ Err Unread.TooLarge) }
    ensures memory { result ≡ Err Unread.Memory → S.faults source.new ≡ S.faults source.old }
{
    let count = source.read(piece)?;
    bytes.extend_from_slice(&piece[..count])?;
    Ok(count)
}
