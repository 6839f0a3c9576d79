//! That each text has an answer, as functions that do nothing: bytes come in, and they have tokens or a first fault; tokens are a
//! file of the grammar or have one; and so on. The layer above uses `a_text_denotes_a_system_or_has_a_fault`.
#![tactic(auto)]

pub mod law;
