//! The whole input of a run, which is read in pieces.
ghost use Rattle.std.specs.Prelude.{◌≡◌, ◌<◌, ◌+◌, ◌++◌, [], length, IfOk, IfErr, IfSome};
ghost use Rattle.preflib_text.specs.Approvals.{HasNumber};
ghost use Rattle.preflib_text.specs.Limits.{word_limit};
ghost use Rattle.text_output.specs.Device.{reader_state};
ghost use Rattle.vote_cli.specs.Steps.Refusals.{IsUnread, ReadsOn};

use crate::refusal::Refusal;
use crate::storage::Storage;
use preflib_text::{FaultName, LineReader, Pick};
use std::alloc::Allocator;
use text_output::Source;

/// The maximum number of bytes per read.
const PIECE: usize = 8192;

/// Feeds a piece. `lines` keeps a fault of the input for the end.
fn feed_piece<A: Allocator + Copy + Drop>(
    lines: &mut LineReader<A>,
    piece: &[u8],
) -> Result<(), Refusal>
    requires { length lines.old.fed + length piece.now < word_limit }
    ensures fed { lines.new.fed ≡ lines.old.fed ++ piece.now }
    ensures pick { lines.new.pick ≡ lines.old.pick }
    ensures memory { IfErr result (λ refusal. refusal ≡ Refusal.Memory) }
{
    match lines.feed(piece) {
        Err(fault) if fault.name == FaultName::Memory => Err(Refusal::Memory),
        _ => Ok(()),
    }
}

/// Feeds all that the reader still has, in pieces. The input is read to its end even after a fault. More bytes than a
/// `u64` can count are a failed read.
fn feed_all<A: Allocator + Copy + Drop, R: Source>(
    lines: &mut LineReader<A>,
    reader: &mut R,
) -> Result<(), Refusal>
    requires { lines.old.fed ≡ [] }
    ensures bytes { IfOk result (λ _. IfSome (R.remaining reader.old) (λ bytes. lines.new.fed ≡ bytes)) }
    ensures pick { lines.new.pick ≡ lines.old.pick }
    ensures reads { ReadsOn (reader_state R.remaining R.has_failed R.given reader.old)
        (reader_state R.remaining R.has_failed R.given reader.new) result }
    ensures unread { IfErr result IsUnread }
{
    let mut piece = [0; PIECE];
    // The number of bytes that may still be fed.
    let mut left = u64::MAX;
    loop {
        let Ok(count) = reader.read(&mut piece) else {
            return Err(Refusal::ReadFailed);
        };
        if count == 0 {
            return Ok(());
        }
        if count as u64 > left {
            return Err(Refusal::ReadFailed);
        }
        left -= count as u64;
        feed_piece(lines, &piece[..count])?;
    }
}

/// The lines of the whole input, which is read to its end.
pub(crate) fn read_to_end<A: Allocator + Copy + Drop, R: Source>(
    storage: Storage<A>,
    pick: &Pick,
    reader: &mut R,
) -> Result<LineReader<A>, Refusal>
    requires { HasNumber pick.now.way }
    ensures bytes { IfOk result (λ lines. IfSome (R.remaining reader.old) (λ bytes. lines.fed ≡ bytes)) }
    ensures pick { IfOk result (λ lines. lines.pick ≡ pick.now) }
    ensures reads { ReadsOn (reader_state R.remaining R.has_failed R.given reader.old)
        (reader_state R.remaining R.has_failed R.given reader.new) result }
    ensures unread { IfErr result IsUnread }
{
    let Ok(mut lines) = LineReader::with_hashing(storage.alloc, *pick, storage.hashing) else {
        return Err(Refusal::Memory);
    };
    feed_all(&mut lines, reader)?;
    Ok(lines)
}
