// Lists of calls on a room, made one after another, and the law that holds of every such list.

#![tactic(auto)]

pub mod call;
pub mod play;
