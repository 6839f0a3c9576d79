//! The event core of the search: what the events of a search are, where each is allowed, what it leaves, and what holds after
//! every lawful journal, whoever wrote it. The layer above uses `Replays` with the laws of `law`, and `CoreState`, which tests
//! what can be tested of an event without looking at states.
#![tactic(auto)]

mod core_state;
mod entries;
mod entry;
mod event;
mod found;
mod journal;
mod law;
mod link;
mod origin;
mod sought;
mod work;

pub use core_state::CoreState;
pub use entry::Entry;
pub use event::Event;
pub use found::Found;
pub use journal::Journal;
pub use law::{
    a_journal_grows_by_what_is_allowed, an_empty_base_is_one,
    at_quiet_the_kept_entries_are_what_can_reach, done_entries_are_worked_out,
    each_cube_can_reach_a_goal, each_cube_comes_from_its_origin, each_cube_is_tight,
    each_entry_was_new, each_event_keeps_what_is_sound, entries_stay_within_the_budget,
    kept_entries_cover_all_entries, kept_entries_cover_all_submissions,
    only_the_hit_is_met_at_the_start, what_stands_was_recorded,
};
pub use link::Link;
pub use origin::Origin;
pub use sought::Sought;
pub use work::Work;
