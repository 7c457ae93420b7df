// The encoder and the judge compared with the second ones, for a program to print. Its functions are proved to be safe and to
// end, and promise no more: what is compared is seen by running it. Assumes nothing.
#![tactic(auto)]

pub mod compare;
