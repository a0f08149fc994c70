//! Plain types that the other crates speak of, and the definitions of what a send gives and what a receive makes of it.
#![tactic(auto)]

pub mod features;
mod fields;
mod laws;
pub mod limits;
mod pools;
mod refusals;
mod sends;
mod states;

pub use fields::bytes::Bytes;
pub use fields::guids::GuidSet;
pub use fields::list::List;
pub use fields::name::NameText;
pub use laws::{more_runs, one_list, runs_are_pairs};
pub use pools::command::Command;
pub use pools::reply::Reply;
pub use pools::snapshots::Snapshots;
pub use refusals::apply_fault::ApplyFault;
pub use refusals::faults::{Flaw, Lack, Quantity};
pub use refusals::plan_fault::PlanFault;
pub use refusals::refusal::Refusal;
pub use refusals::stream_fault::StreamFault;
pub use refusals::subjects::{AbsentSubject, Holder, Name, PresentSubject, ResumePlace};
pub use refusals::text::{Text, guid_text};
pub use sends::ask::{FromName, SendAsk};
pub use sends::header::{Header, Point};
pub use sends::points::{point_after, stated_point};
pub use states::attr::{Attr, ObjectHead, is_user_data};
pub use states::cell::{Cell, Run};
pub use states::item::{Change, Item};
