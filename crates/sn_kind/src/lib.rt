//! One type for the apps of all classes.
//!
//! - `kind`: an app of any class, and its calls
#![tactic(auto)]

mod kind;

pub use kind::AppKind;
