ghost use Rattle.std.specs.Prelude.{◌≡◌, ◌+◌, ◌≤◌, ◌++◌, length};
ghost use Rattle.arrayvec.specs.ArrayString.{array_string_len};
ghost use Rattle.zst_model.specs.refusals.Subjects.{name_text, missing_text, present_text, holder_text, place_text};

use crate::refusals::text::{Text, joined, numbered, plain, push_guid, push_number, with_guid};
use crate::sends::header::Point;
use zst_names::{BookName, DatasetName, SnapName};

/// A name of any kind.
#[derive(Drop, PartialEq, Eq)]
pub enum Name {
    Dataset(DatasetName),
    Snapshot(SnapName),
    Bookmark(BookName),
}

/// What is absent (E3).
#[derive(Drop, PartialEq, Eq)]
pub enum AbsentSubject {
    Named(Name),
    /// What a token names by its guid.
    Guid(u64),
    /// A session, by its id.
    Session(u32),
}

/// What is there already (E4).
#[derive(Drop, PartialEq, Eq)]
pub enum PresentSubject {
    Named(Name),
    Pool,
}

/// What holds the thing that was to change or to go (E5).
#[derive(Drop, PartialEq, Eq)]
pub enum Holder {
    /// A session, by its id.
    Session(u32),
    /// The dataset's partial state.
    Partial(DatasetName),
    /// A dataset whose origin it is.
    Clone(DatasetName),
    Bookmark(BookName),
    Snapshot(SnapName),
}

/// Where a receive that was cut goes on (E15).
#[derive(Clone, Copy, PartialEq, Eq)]
pub struct ResumePlace {
    /// The guid of the snapshot that is sent.
    pub guid: u64,
    pub point: Point,
}

impl Name {
    /// Its text.
    pub fn text(&self) -> &str
        ensures same { result.now ≡ name_text self.now }
        ensures short { length result.now ≤ 255 }
    {
        match self {
            Name::Dataset(name) => name.text(),
            Name::Snapshot(name) => name.text(),
            Name::Bookmark(name) => name.text(),
        }
    }
}

impl AbsentSubject {
    /// The text of its refusal.
    pub(crate) fn text(&self) -> Text
        ensures { result.bytes ≡ missing_text self.now }
    {
        match self {
            AbsentSubject::Named(name) => joined("no such ", name.text()),
            AbsentSubject::Guid(guid) => with_guid("no such guid ", *guid),
            AbsentSubject::Session(id) => numbered("no such session ", u64::from(*id)),
        }
    }
}

impl PresentSubject {
    /// The text of its refusal.
    pub(crate) fn text(&self) -> Text
        ensures { result.bytes ≡ present_text self.now }
    {
        match self {
            PresentSubject::Named(name) => joined("exists: ", name.text()),
            PresentSubject::Pool => plain("exists: pool"),
        }
    }
}

impl Holder {
    /// The text of its refusal.
    pub(crate) fn text(&self) -> Text
        ensures { result.bytes ≡ holder_text self.now }
    {
        match self {
            Holder::Session(id) => numbered("busy: session ", u64::from(*id)),
            Holder::Partial(name) => joined("busy: partial ", name.text()),
            Holder::Clone(name) => joined("busy: clone ", name.text()),
            Holder::Bookmark(name) => joined("busy: bookmark ", name.text()),
            Holder::Snapshot(name) => joined("busy: snapshot ", name.text()),
        }
    }
}

impl ResumePlace {
    /// Puts its guid, object and offset behind a text.
    pub(crate) fn push(&self, text: &mut Text)
        requires room { array_string_len text.old + 58 ≤ 540 }
        ensures bytes { text.new.bytes ≡ text.old.bytes ++ place_text self.now }
        ensures short { array_string_len text.new ≤ array_string_len text.old + 58 }
    {
        push_guid(text, self.guid);
        text.push_str(" ");
        push_number(text, self.point.object);
        text.push_str(" ");
        push_number(text, self.point.offset);
    }
}
