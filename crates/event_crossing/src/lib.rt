//! Items of scripts and events of accounts may cross threads.
#![tactic(auto)]
