//! The names of targets, in normal form.
//!
//! A [`TargetName`] is always a normal form. Its equality is an equivalence relation, and equal names have equal hashes.
//! [`TargetName::resolve`] computes the normal form of any name. [`HashKeys`] are the keys with which names are hashed.
#![tactic(auto)]

mod hash_keys;
mod laws;
mod name;
mod normal_form;

pub use hash_keys::HashKeys;
pub use laws::{base_directory_rules, normal_form_is_idempotent, segment_rules};
pub use name::{NameFault, TargetName, resolve_to};
