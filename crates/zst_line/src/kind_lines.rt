//! The line that words say which fit their places.
ghost use Rattle.std.specs.Prelude.{◌∷◌, map, string_bytes, IfOk};
ghost use Rattle.std.specs.List.{AllZip};
ghost use Rattle.zst_line.specs.Grammar.{word_of, places_of};
ghost use Rattle.zst_line.specs.WordFaults.{Takes};
ghost use Rattle.zst_line.specs.Line.{LineIs};

use crate::commands::{
    abort, bookmark_of, clone, create, destroy, free, fs, list, list_objects, object, punch, read,
    reclaim, snapshot_of, volume, write,
};
use crate::kind::Kind;
use crate::line::Line;
use crate::options::goes_on;
use crate::streams::{receive, redact, resume, rollback, send};
use crate::tools::{check, gen_line, replay, token};
use std::alloc::{AllocError, Global};

/// The line of a kind that these words behind its first one say.
pub fn spelled(alloc: Global, kind: Kind, words: &[String]) -> Result<Line, AllocError>
    requires { AllZip Takes (places_of kind (map string_bytes words.now)) (map string_bytes words.now) }
    ensures { IfOk result (λ line. LineIs line (word_of kind ∷ map string_bytes words.now)) }
{
    match kind {
        Kind::Dump => Ok(Line::Dump),
        Kind::Create => create(alloc, words),
        Kind::Fs => fs(alloc, words),
        Kind::Volume => volume(alloc, words),
        Kind::Object => object(alloc, words),
        Kind::Write => write(alloc, words),
        Kind::Punch => punch(alloc, words),
        Kind::Free => free(alloc, words),
        Kind::Read => read(alloc, words),
        Kind::List if words.len() < 2 => list(alloc, words),
        Kind::List => list_objects(alloc, words),
        Kind::Snapshot => snapshot_of(alloc, words),
        Kind::Clone => clone(alloc, words),
        Kind::Bookmark => bookmark_of(alloc, words),
        Kind::Rollback => rollback(alloc, words),
        Kind::Destroy => destroy(alloc, words),
        Kind::Redact => redact(alloc, words),
        Kind::Send if goes_on(kind, words) => resume(alloc, words),
        Kind::Send => send(alloc, words),
        Kind::Receive => receive(alloc, words),
        Kind::Abort => abort(alloc, words),
        Kind::Token => token(alloc, words),
        Kind::Check => check(alloc, words),
        Kind::Gen => gen_line(alloc, words),
        Kind::Reclaim => reclaim(alloc, words),
        Kind::Replay => replay(alloc, words),
    }
}
