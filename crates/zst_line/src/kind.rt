ghost use Rattle.std.specs.Prelude.{◌≡◌, ◌≢◌, MatchOption};
ghost use Rattle.zst_line.specs.Grammar.{word_of};
ghost use Rattle.zst_line.specs.declared.kind.Kind.{Kind};

/// The lines, by their first word.
#[derive(Clone, Copy)]
pub enum Kind {
    Dump,
    Create,
    Fs,
    Volume,
    Object,
    Write,
    Punch,
    Free,
    Read,
    List,
    Snapshot,
    Clone,
    Bookmark,
    Rollback,
    Destroy,
    Redact,
    Send,
    Receive,
    Abort,
    Token,
    Check,
    Gen,
    Reclaim,
    Replay,
}

/// The kind of line that a first word names.
pub fn kind_of(word: &str) -> Option<Kind>
    ensures { MatchOption result ((kind : Kind) → word.now ≢ word_of kind) (λ kind. word.now ≡ word_of kind) }
{
    match word {
        "dump" => Some(Kind::Dump),
        "create" => Some(Kind::Create),
        "fs" => Some(Kind::Fs),
        "volume" => Some(Kind::Volume),
        "object" => Some(Kind::Object),
        "write" => Some(Kind::Write),
        "punch" => Some(Kind::Punch),
        "free" => Some(Kind::Free),
        "read" => Some(Kind::Read),
        "list" => Some(Kind::List),
        "snapshot" => Some(Kind::Snapshot),
        "clone" => Some(Kind::Clone),
        "bookmark" => Some(Kind::Bookmark),
        "rollback" => Some(Kind::Rollback),
        "destroy" => Some(Kind::Destroy),
        "redact" => Some(Kind::Redact),
        "send" => Some(Kind::Send),
        "receive" => Some(Kind::Receive),
        "abort" => Some(Kind::Abort),
        "token" => Some(Kind::Token),
        "check" => Some(Kind::Check),
        "gen" => Some(Kind::Gen),
        "reclaim" => Some(Kind::Reclaim),
        "replay" => Some(Kind::Replay),
        _ => None,
    }
}
