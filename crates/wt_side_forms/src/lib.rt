//! What the forms of sides have that the code of steps asks for.
#![tactic(auto)]

mod laws;

pub use laws::forms_of_sides_have_room;
pub use std::alloc::AllocError as WantOfMemory;
