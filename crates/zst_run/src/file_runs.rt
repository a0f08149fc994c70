// A run over a file, and one over two.
ghost use Rattle.std.specs.Prelude.{◌≡◌, [], map, string_bytes, length, true, Bool, List, ℕ};
ghost use Rattle.zst_file.specs.FileDisk.{history_of, size_of, state_of};
ghost use Rattle.zst_model.specs.pools.Pool.{Pool};
ghost use Rattle.zst_image.specs.Reads.{Reads};
ghost use Rattle.zst_run.specs.Devices.{devices};
ghost use Rattle.zst_run.specs.Runs.{Runs};

use crate::runs::run;
use std::alloc::Global;
use zst_file::{FileDisk, Start};
use zst_outside::{Disk, Sink, Source};

/// Runs the words over a file that was just opened.
///
/// Its clauses on content are for any first content of the file, of which `S` tells: they hold where its size was that
/// content's, and each of its reads gave what that content and the writes since make of it.
pub fn run_on_file<F: Start, E: Disk, S: Source, K: Sink, N: Sink>(
    alloc: Global,
    words: &[String],
    now: u64,
    here: &mut FileDisk<F>,
    there: &mut E,
    input: &mut S,
    out: &mut K,
    note: &mut N,
) -> u8
    requires fresh { history_of here.old ≡ [] }
    ensures runs { Runs (state_of F.Start) true E.state E.tells_images now (map string_bytes words.now)
        (devices here.old there.old (S.state input.old) (K.state out.old)) (devices here.new there.new (S.state input.new) (K.state out.new))
        (N.state note.old) (N.state note.new) result }
    // A file of this content reads as the pool, and so does what a crash leaves of it where a crash before would have left this content or another that reads so.
    ensures reads { (tight : Bool) (pool : Pool) → length F.Start.held ≡ size_of here.old → Reads tight pool F.Start.held → Reads tight pool (state_of F.Start here.old).seen }
    ensures images { (tight : Bool) (pool : Pool) → length F.Start.held ≡ size_of here.old → Reads tight pool F.Start.held
        → ((c : List ℕ) → length c ≡ length F.Start.held → F.Start.left c → Reads tight pool c)
        → (c : List ℕ) → (state_of F.Start here.old).images c → Reads tight pool c }
{
    run(alloc, words, now, here, there, input, out, note)
}

/// Runs the words over two files that were just opened.
///
/// Of the content of each it says what `run_on_file` says of one.
pub fn run_on_files<F: Start, G: Start, S: Source, K: Sink, N: Sink>(
    alloc: Global,
    words: &[String],
    now: u64,
    here: &mut FileDisk<F>,
    there: &mut FileDisk<G>,
    input: &mut S,
    out: &mut K,
    note: &mut N,
) -> u8
    requires fresh { history_of here.old ≡ [] }
    requires fresh_there { history_of there.old ≡ [] }
    ensures runs { Runs (state_of F.Start) true (state_of G.Start) true now (map string_bytes words.now)
        (devices here.old there.old (S.state input.old) (K.state out.old)) (devices here.new there.new (S.state input.new) (K.state out.new))
        (N.state note.old) (N.state note.new) result }
    ensures reads { (tight : Bool) (pool : Pool) → length F.Start.held ≡ size_of here.old → Reads tight pool F.Start.held → Reads tight pool (state_of F.Start here.old).seen }
    ensures images { (tight : Bool) (pool : Pool) → length F.Start.held ≡ size_of here.old → Reads tight pool F.Start.held
        → ((c : List ℕ) → length c ≡ length F.Start.held → F.Start.left c → Reads tight pool c)
        → (c : List ℕ) → (state_of F.Start here.old).images c → Reads tight pool c }
    ensures reads_there { (tight : Bool) (pool : Pool) → length G.Start.held ≡ size_of there.old → Reads tight pool G.Start.held → Reads tight pool (state_of G.Start there.old).seen }
    ensures images_there { (tight : Bool) (pool : Pool) → length G.Start.held ≡ size_of there.old → Reads tight pool G.Start.held
        → ((c : List ℕ) → length c ≡ length G.Start.held → G.Start.left c → Reads tight pool c)
        → (c : List ℕ) → (state_of G.Start there.old).images c → Reads tight pool c }
{
    run(alloc, words, now, here, there, input, out, note)
}
