//! That no cycle of waits goes through the journal, where who has it never waits.
#![tactic(auto)]

mod laws;

pub use laws::{
    no_cycle_goes_through_the_journal, no_notice_is_due_at_the_journal,
    wants_of_the_journal_are_asked,
};
