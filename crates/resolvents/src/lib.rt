// The selected literal and the derived goals, which the written rules call resolvents.
#![tactic(auto)]

pub mod fresh;
pub mod put;
pub mod resolve;
pub mod select;
pub mod workspace;
