//! The commands of `wetune`, each from its words to a status and the bytes written.
#![tactic(auto)]

mod top;

pub use top::wetune;
pub use wt_demo::demo;
pub use wt_discovery::discover_alone;
pub use wt_rewriting::{check, rewrite};
pub use wt_sharing::discover;
