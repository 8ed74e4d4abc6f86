//! What a line spells is spelled by its canonical text again.
#![tactic(auto)]

pub mod laws;
#[cfg(test)]
mod tests;
