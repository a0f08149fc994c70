//! Whether a pool is sound: what a check reports, and the laws that hold its reports to the definition of soundness.
#![tactic(auto)]

mod bookmarks;
mod checked_pools;
mod dates;
mod differences;
mod laws;
mod list_pairs;
mod lists;
mod names;
mod nearest;
mod numbers;
mod parts;
mod redactions;
mod report;
mod states;

pub use checked_pools::check;
pub use laws::{
    decided_pools_have_reports, differences_deny_agreement, late_dates_deny_dates,
    late_snapshots_deny_dates, lists_that_differ_deny_lists, misplaced_bookmarks_deny_bookmarks,
    nearest_states_make_sound, no_report_is_both, numbers_in_turn_are_enough,
    two_faults_are_told_in_order,
};
pub use parts::find_unsound;
pub use report::Report;
