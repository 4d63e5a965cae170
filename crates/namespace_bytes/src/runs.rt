//! Runs of bytes that are put into a namespace.
ghost use Rattle.std.specs.Prelude.{◌≡◌, ◌+◌, ◌^◌, ◌<◌, ◌≤◌, length};
ghost use Rattle.cut_words.specs.WordBytes.{put_at};
ghost use Rattle.namespace_bytes.specs.Changed.{changed_from};
ghost use Rattle.namespace_bytes.specs.Runs.{run_byte, runs_byte};

use nvd_words::Items;

/// Bytes that are put into a namespace, one after another.
#[derive(Debug, Drop)]
pub struct Run {
    /// The number of the first one in the namespace.
    pub first: u64,
    pub bytes: Items<u8>,
}

/// Puts bytes into a piece, from its byte `at` on.
fn put_part(piece: &mut [u8], at: usize, bytes: &[u8])
    requires { at + length bytes.now ≤ length piece.old }
    ensures { piece.new ≡ put_at piece.old at bytes.now }
{
    piece[at..at + bytes.len()].copy_from_slice(bytes);
}

/// Puts bytes that begin at byte `first` of the namespace into a piece that begins at byte `from`.
fn put_bytes(bytes: &[u8], first: u64, from: u64, piece: &mut [u8])
    requires { from + length piece.old < 2 ^ 64 }
    ensures { piece.new ≡ changed_from (run_byte (record { first = first; bytes = bytes.now })) from piece.old }
{
    let ahead = first.saturating_sub(from);
    let done = from.saturating_sub(first);
    if piece.len() as u64 <= ahead || bytes.len() as u64 <= done {
        return;
    }
    let (ahead, done) = (ahead as usize, done as usize);
    let count = (piece.len() - ahead).min(bytes.len() - done);
    put_part(piece, ahead, &bytes[done..done + count]);
}

/// Puts runs into a piece of the namespace that begins at byte `from`, one after another.
pub(crate) fn put_runs(runs: &[Run], from: u64, piece: &mut [u8])
    requires { from + length piece.old < 2 ^ 64 }
    ensures { piece.new ≡ changed_from (runs_byte runs.now) from piece.old }
{
    for run in runs {
        put_bytes(run.bytes.as_slice(), run.first, from, piece);
    }
}
