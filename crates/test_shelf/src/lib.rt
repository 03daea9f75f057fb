// Calls on shelves and sinks. There is nothing here but tests.
#![tactic(auto)]

#[cfg(test)]
mod tests;
