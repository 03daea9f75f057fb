// What is asked of the models of a netlist file without flattening it: what their instances bind, how they nest, and the sum of
// a number of each model over all instances.
#![tactic(auto)]

pub mod callees;
pub mod components;
mod faults;
pub mod graph;
mod links;
pub mod names;
pub mod nest_faults;
mod numbered;
pub mod port_faults;
mod ports;
pub mod rounds;
mod scan;
mod search;
