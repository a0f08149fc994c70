ghost use Rattle.std.specs.Prelude.{◌≡◌, ◌≤◌, [], ◌∷◌, codes};
ghost use Rattle.std.specs.List.{concat};
ghost use Rattle.zst_model.specs.refusals.Subjects.{place_text};
ghost use Rattle.zst_model.specs.refusals.PlanFault.{plan_number, plan_text};
ghost use Rattle.zst_model.specs.refusals.Texts.{guid_text};

use crate::refusals::faults::{Lack, Quantity};
use crate::refusals::subjects::{AbsentSubject, Holder, Name, PresentSubject, ResumePlace};
use crate::refusals::text::{
    Text, explained, joined, limited, numbered, plain, push_guid, with_guid,
};
use std::fmt;
use zst_names::{BookName, DatasetName, NameFault, SnapName};

/// Why a pool's command, a send or a receive can't be done: what its plan found, before anything changed.
#[derive(Drop, PartialEq, Eq)]
pub enum PlanFault {
    /// E2: the byte at which a name stops being one.
    BadName {
        place: u64,
    },
    /// E3: what is absent.
    NoSuch(AbsentSubject),
    /// E4: what is there already.
    Exists(PresentSubject),
    /// E5: what holds it.
    Busy(Holder),
    /// E6: `from` doesn't stand before `to`, or their datasets differ where they have to be one.
    NotAncestor {
        to: Name,
        from: Name,
    },
    /// E7: the bookmark has no redaction list, or another snapshot's guid.
    NotRedactionOf {
        bookmark: BookName,
        snapshot: SnapName,
    },
    /// E8: the snapshot doesn't stand before this one.
    NotDescendant(SnapName),
    /// E9: the dataset's head was changed after its latest snapshot.
    Modified(DatasetName),
    /// E10: the guid of the latest snapshot, 0 where there is none, and the one that the stream comes from.
    NotLatest {
        have: u64,
        want: u64,
    },
    /// E11: no snapshot has the guid that the stream comes from.
    NoOrigin {
        guid: u64,
    },
    /// E12: the base is redacted, and this guid isn't among those that it was redacted for.
    NotContained {
        guid: u64,
    },
    /// E13: the dataset has a partial state, and the stream isn't resumed.
    PartialExists(DatasetName),
    /// E14: the dataset has no partial state.
    NoPartial(DatasetName),
    /// E15: what the pool keeps, and what the stream states.
    WrongResume {
        have: ResumePlace,
        want: ResumePlace,
    },
    /// E19: what isn't supported.
    Unsupported(Lack),
    /// E23: a quantity past its limit, and the limit.
    Limit {
        which: Quantity,
        number: u64,
    },
}

/// The guid of the latest snapshot, and the one that was asked for.
fn not_latest(have: u64, want: u64) -> Text
    ensures { result.bytes ≡ concat (codes "not latest: have " ∷ guid_text have
        ∷ codes ", want " ∷ guid_text want ∷ []) }
{
    let mut text = with_guid("not latest: have ", have);
    text.push_str(", want ");
    push_guid(&mut text, want);
    text
}

/// What the pool keeps, and what the stream states.
fn wrong_resume(have: &ResumePlace, want: &ResumePlace) -> Text
    ensures { result.bytes ≡ concat (codes "wrong resume: have " ∷ place_text have.now
        ∷ codes ", want " ∷ place_text want.now ∷ []) }
{
    let mut text = plain("wrong resume: have ");
    have.push(&mut text);
    text.push_str(", want ");
    want.push(&mut text);
    text
}

impl PlanFault {
    /// The number of its refusal.
    pub fn number(&self) -> u8
        ensures { result ≡ plan_number self.now }
    {
        match self {
            PlanFault::BadName { .. } => 2,
            PlanFault::NoSuch(_) => 3,
            PlanFault::Exists(_) => 4,
            PlanFault::Busy(_) => 5,
            PlanFault::NotAncestor { .. } => 6,
            PlanFault::NotRedactionOf { .. } => 7,
            PlanFault::NotDescendant(_) => 8,
            PlanFault::Modified(_) => 9,
            PlanFault::NotLatest { .. } => 10,
            PlanFault::NoOrigin { .. } => 11,
            PlanFault::NotContained { .. } => 12,
            PlanFault::PartialExists(_) => 13,
            PlanFault::NoPartial(_) => 14,
            PlanFault::WrongResume { .. } => 15,
            PlanFault::Unsupported(_) => 19,
            PlanFault::Limit { .. } => 23,
        }
    }

    /// Its text, as the program prints it.
    #[tactic(auto, unfolding(crate::specs::refusals::PlanFault::plan_text))]
    pub fn text(&self) -> Text
        ensures { result.bytes ≡ plan_text self.now }
    {
        match self {
            PlanFault::BadName { place } => numbered("bad name at ", *place),
            PlanFault::NoSuch(missing) => missing.text(),
            PlanFault::Exists(present) => present.text(),
            PlanFault::Busy(holder) => holder.text(),
            PlanFault::NotAncestor { to, from } => {
                explained("not an ancestor of ", to.text(), from.text())
            }
            PlanFault::NotRedactionOf { bookmark, snapshot } => {
                explained("not a redaction of ", snapshot.text(), bookmark.text())
            }
            PlanFault::NotDescendant(snapshot) => joined("not a descendant: ", snapshot.text()),
            PlanFault::Modified(dataset) => joined("modified: ", dataset.text()),
            PlanFault::NotLatest { have, want } => not_latest(*have, *want),
            PlanFault::NoOrigin { guid } => with_guid("no origin with guid ", *guid),
            PlanFault::NotContained { guid } => with_guid("not contained: guid ", *guid),
            PlanFault::PartialExists(dataset) => joined("partial exists: ", dataset.text()),
            PlanFault::NoPartial(dataset) => joined("no partial: ", dataset.text()),
            PlanFault::WrongResume { have, want } => wrong_resume(have, want),
            PlanFault::Unsupported(lack) => joined("unsupported: ", lack.text().as_str()),
            PlanFault::Limit { which, number } => limited(which.word(), *number),
        }
    }
}

/// Shown by its text.
impl fmt::Debug for PlanFault {
    fn fmt<W: fmt::Write>(&self, f: &mut fmt::Formatter<W>) -> fmt::Result {
        f.pad(self.text().as_str())
    }
}

impl From<NameFault> for PlanFault {
    ghost use Rattle.std.specs.Prelude.{◌≡◌};
    ghost use Rattle.zst_model.specs.declared.refusals.plan_fault.PlanFault.TheVariants as faults;

    ghost from_gives = { λ fault plan. plan ≡ faults.BadName fault.place };

    fn from(fault: NameFault) -> PlanFault {
        PlanFault::BadName { place: fault.place }
    }
}
