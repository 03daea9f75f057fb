// The machine of a campaign, the shared table, and a board. There is nothing here but tests.
#![tactic(auto)]

#[cfg(test)]
mod board;
#[cfg(test)]
mod claims;
#[cfg(test)]
mod machine;
