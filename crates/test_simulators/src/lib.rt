// A small circuit with a latch, by hand and in each layer. There is nothing here but tests.
#![tactic(auto)]

#[cfg(test)]
mod hand;
#[cfg(test)]
mod plain;
#[cfg(test)]
mod single;
#[cfg(test)]
mod tests;
#[cfg(test)]
mod toggle;
#[cfg(test)]
mod words;
