use super::*;
use std::test::*;
use std::thread::{Threads, join};

// Calls the gate through its bound
fn call<G: Gate>(gate: &G, worker: u32) {
    gate.drawn(worker, worker);
}

#[test]
fn two_callers_at_once_meet(rt: HostRuntime) -> Result<(), Fail> {
    let gate = PairGate::new();
    assert!(rt; !gate.met());
    join(&rt, || call(&gate, 0), || call(&gate, 1));
    assert!(rt; gate.met());
    Ok(())
}

#[test]
fn one_caller_alone_meets_nobody(rt: HostRuntime) -> Result<(), Fail> {
    let gate = PairGate::with_looks(1_000);
    call(&gate, 0);
    call(&gate, 0);
    call(&NoGate, 0);
    assert!(rt; !gate.met());
    Ok(())
}
