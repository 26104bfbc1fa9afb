// The declarations of a text: their names in a table, and walks without one.
#![tactic(auto)]

pub mod declarations;
pub mod table;
pub mod walks;
pub mod windows;
