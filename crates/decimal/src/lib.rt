// Decimals: what a number is as text, its one reading and its one writing, and bytes at a place of a text: definitions
// (specs/) and their laws (proofs/), and the type of what is read. What computes them stands in crates above. Assumes nothing.
#![tactic(auto)]

// A decimal that was read: the number that it says, or 10000000000 where it is more, and the place past its last digit.
#[derive(Clone, Copy)]
pub struct Reading {
    pub value: u64,
    pub end: usize,
}

// Digits that a text begins with, whether they are a decimal or not: the same number, and how many they are.
#[derive(Clone, Copy)]
pub struct Digits {
    pub value: u64,
    pub count: usize,
}
