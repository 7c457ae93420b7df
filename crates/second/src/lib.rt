// A second check and judge, by other methods than the library's, to be compared with it. This crate uses nothing of the
// library. Its functions are proved to be safe and to end, and promise no more: a difference shows that one of the two is wrong.
// Assumes nothing.
#![tactic(auto)]

pub mod builds;
pub mod checker;
