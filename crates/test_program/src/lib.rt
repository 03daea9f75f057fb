// Whole calls of the program over files in memory. There is nothing here but tests.
#![tactic(auto)]

#[cfg(test)]
mod call;
#[cfg(test)]
mod inputs;
#[cfg(test)]
mod steps;
#[cfg(test)]
mod tests;
#[cfg(test)]
mod watch;
