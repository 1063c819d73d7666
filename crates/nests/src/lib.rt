// Levels on one another, over both ciphers and both bottoms, made and moved in tests.
#![tactic(auto)]

#[cfg(test)]
mod tests;
