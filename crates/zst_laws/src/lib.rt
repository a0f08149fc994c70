//! The laws of sends and receives: what the definitions of zst_model give together.
#![tactic(auto)]

ghost use Rattle.zst_laws.specs.FileExample.{SmallItems, SmallPoints, RewrittenItems, ShortenedItems, ReallocatedItems, DistantItems};
ghost use Rattle.zst_laws.specs.Bases.{AnyIsFullBase, BeforeIsBase, RedactedIsBase};
ghost use Rattle.zst_laws.specs.JoinedRuns.{RunsAreMaximal, HeldGoesOn};
ghost use Rattle.zst_laws.specs.Ranges.{NumbersAreCut, IndicesAreCut};
ghost use Rattle.zst_laws.specs.ResumedSends.{ResumeIsExact, StartStands, CutStands, PointsRise};
ghost use Rattle.zst_laws.specs.ExactSends.{SnapshotHasView, SendIsExact, FullIsExact, RedactedIsState, StreamsAgree, ViewsAgree};
ghost use Rattle.zst_laws.specs.Walk.{WalkBegins, WalkEnds, ObjectIsNext, GoneIsNext, GoneRunIsNext, BlockIsNext, BlockRunIsNext};

mod aborts;
mod alike_pools;
mod clone_example;
mod command_examples;
mod commits;
mod dates;
mod headers;
mod holding_sessions;
mod kept_pools;
mod line_examples;
mod lineage;
mod lineage_examples;
mod lineage_refusals;
mod meanings;
mod nearest_snapshots;
mod plan_examples;
mod received_records;
mod reclaims;
mod redact_example;
mod redaction_lists;
mod redaction_steps;
mod redactions;
mod relays;
mod remembered_states;
mod send_examples;
mod send_plans;
mod sessions;
mod step_examples;
mod step_invariants;
mod step_refusals;

pub use aborts::{aborted_go_alone, aborts_are_refused};
pub use clone_example::{bookmarks_are_of_one, clones_stand};
pub use command_examples::{object_is_replaced, range_is_punched};
pub use commits::{history_remembers, increment_is_exact};
pub use dates::{
    applied_is_state, changes_are_dated, dates_are_exact, remembers_itself, remembers_on,
    remembers_through,
};
pub use headers::{
    choices_are_exact, headers_are_exact, headers_keep_the_rest, sends_are_stated, sends_have_items,
};
pub use holding_sessions::{
    busy_sessions_are_named, least_session_is_named, sessions_hold_back, steps_ask_no_session,
};
pub use kept_pools::{keeping_is_done, kept_are_kept, kept_are_lawful};
pub use line_examples::{blocks_are_read, objects_are_listed, pool_is_listed};
pub use lineage::{
    bookmarks_keep_snapshots, clones_are_as_snapshots, destroyed_go_alone, heads_are_rolled_back,
};
pub use lineage_examples::{clone_holds_origin, holders_are_told, mark_holds_head};
pub use lineage_refusals::{
    bookmarks_are_refused, clones_are_refused, destroys_are_refused, rollbacks_are_refused,
};
pub use meanings::{
    attributes_date_numbers, block_sizes_are_multiples, blocks_date_no_number, contents_are_told,
    equal_dates_are_left, frees_fail, headers_say_resuming, lists_are_of_user_data,
    lists_can_be_redacted, other_heads_stay, ranges_date_blocks, redacts_fail, rows_stand_in_order,
    snapshots_keep_guids, sources_are_included, spills_are_kept, spills_fail,
    user_data_has_two_types, volumes_are_made, writes_fail,
};
pub use plan_examples::{clones_are_planned, increments_are_planned, redacted_are_planned};
pub use received_records::{
    cut_is_part_way, far_records_are_refused, moved_has_taken, part_way_is_completed,
    received_is_state, record_faults_come_first,
};
pub use reclaims::{reclaimed_stay, reclaims_are_refused};
pub use remembered_states::{
    history_is_base, own_is_remembered, remembered_is_base, sources_are_bases, steps_remember,
};
pub use send_examples::{changed_objects_are_sent, whole_object_is_sent};
pub use send_plans::{
    ancestor_is_wanted, before_is_tested, plans_are_of_pool, sends_are_refused_in_order,
};
pub use sessions::{cuts_are_exact, cuts_complete, full_cuts_are_exact, increment_cuts_are_exact};
pub use step_examples::{rewritten_is_made, small_is_changed, small_is_made, small_is_put_again};
pub use step_invariants::{steps_keep_partials, steps_keep_pools, steps_keep_sound};
pub use step_refusals::{
    heads_are_refused, new_datasets_are_refused, numbers_are_refused, punches_are_refused,
    reads_are_refused, snapshots_are_refused, writes_are_refused,
};

// Laws of redaction.
pub use redact_example::two_clones_list_one_block;
pub use redaction_steps::{lists_are_kept, steps_keep_lists};
pub use redactions::{redactions_are_refused, redactions_list_what_none_keeps};

// Laws of redacted bases, and of what is sent of alike pools.
pub use alike_pools::alike_pools_are_sent_alike;
pub use redaction_lists::{covered_is_base, listed_may_be_redacted};
pub use relays::relays_fit;

// A law that no other crate uses yet: of nearest snapshots.
pub use nearest_snapshots::nearest_is_enough;

/// A lawful snapshot with a lawful choice has a lawful view.
pub fn snapshot_has_view()
    ensures { SnapshotHasView }
{}

/// A send over a base that is fit for it gives exactly its snapshot, with exactly the listed pairs redacted.
pub fn send_is_exact()
    ensures { SendIsExact }
{}

/// A full stream gives exactly its snapshot from nothing, with exactly the listed pairs redacted.
pub fn full_is_exact()
    ensures { FullIsExact }
{}

/// What a send gives is a lawful state again.
pub fn redacted_is_state()
    ensures { RedactedIsState }
{}

/// A resumed send completes each state that stands for its point.
pub fn resume_is_exact()
    ensures { ResumeIsExact }
{}

/// A receive begins as a state that stands for the start.
pub fn start_stands()
    ensures { StartStands }
{}

/// A send that is cut after any of its items leaves what stands for the point that it came to.
pub fn cut_stands()
    ensures { CutStands }
{}

/// The items of a send from a point never lead back behind it.
pub fn points_rise()
    ensures { PointsRise }
{}

/// Snapshots that differ in the bytes of redacted pairs alone are sent alike.
pub fn views_agree()
    ensures { ViewsAgree }
{}

/// So the same items stand in their streams, from every point on.
pub fn streams_agree()
    ensures { StreamsAgree }
{}

/// Each lawful state is fit as the base of a full stream.
pub fn any_is_full_base()
    ensures { AnyIsFullBase }
{}

/// A state that a snapshot remembers of the source's number is fit as a base.
pub fn before_is_base()
    ensures { BeforeIsBase }
{}

/// A base stays fit with pairs redacted that the send writes anew.
pub fn redacted_is_base()
    ensures { RedactedIsBase }
{}

/// FREEOBJECTS does what its range does without 0 and cut at 2^48.
pub fn numbers_are_cut()
    ensures { NumbersAreCut }
{}

/// A FREE does what its range does cut at index 2^43.
pub fn indices_are_cut()
    ensures { IndicesAreCut }
{}

/// Runs are as long as they can be.
pub fn runs_are_maximal()
    ensures { RunsAreMaximal }
{}

/// An item that is held back goes into the next where they touch, and otherwise stands by itself.
pub fn held_goes_on()
    ensures { HeldGoesOn }
{}

/// A walk from a point with its slot has the items from that point.
pub fn walk_begins()
    ensures { WalkBegins }
{}

/// A walk ends where nothing is left of any number.
pub fn walk_ends()
    ensures { WalkEnds }
{}

/// A walk to an object gives its opening, and then its blocks.
pub fn object_is_next()
    ensures { ObjectIsNext }
{}

/// A walk to an absent number gives it, and then what follows it.
pub fn gone_is_next()
    ensures { GoneIsNext }
{}

/// A walk to a run of absent numbers gives it as one item, and then what follows it.
pub fn gone_run_is_next()
    ensures { GoneRunIsNext }
{}

/// A walk to a block gives it, and then what follows it.
pub fn block_is_next()
    ensures { BlockIsNext }
{}

/// A walk to a run of holes, of redacted blocks, or of one block of data gives it as one item, and then what follows it.
pub fn block_run_is_next()
    ensures { BlockRunIsNext }
{}

/// A file with one block has OBJECT, FREE, WRITE and FREEOBJECTS, and without the WRITE where its block was received.
pub fn small_has_its_items()
    ensures { SmallItems }
{}

/// Its items lead to the file, past its block, and to the end of the numbers.
pub fn small_has_its_points()
    ensures { SmallPoints }
{}

/// A block that was written with equal bytes is sent.
pub fn rewritten_block_is_sent()
    ensures { RewrittenItems }
{}

/// A file whose last block was punched is sent, with nothing but its new end.
pub fn shortened_file_is_sent()
    ensures { ShortenedItems }
{}

/// The holes of an object that was freed and made again are sent.
pub fn reallocated_holes_are_sent()
    ensures { ReallocatedItems }
{}

/// A hole of 2^30 blocks is one item.
pub fn distant_block_has_one_hole()
    ensures { DistantItems }
{}
