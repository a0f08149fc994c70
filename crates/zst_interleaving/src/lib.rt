//! The laws of receives beside other sessions: each feed is in its receive's progress, whatever was done to the pool between its feeds.
#![tactic(auto)]

mod laws;

pub use laws::{
    events_leave_courses, every_feed_is_progress, every_lawful_feed_is_progress,
    every_replayed_feed_is_progress, feeds_are_progress, feeds_complete, feeds_keep_lawful,
    fresh_are_fit, lines_are_fit, pumps_are_progress, refused_leave_nothing,
    refused_pumps_leave_nothing, replays_keep_lawful, replays_split, runs_stay_on_course,
    scripts_are_fit,
};
