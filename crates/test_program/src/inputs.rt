// The four input files of a small campaign, and what is worked out of them by hand.
use room::{NoRoom, extend, from_slice, from_str, push};
use std::alloc::Global;

// Adds a number of at most two digits.
fn put_number(text: &mut Vec<u8>, number: u8) -> Result<(), NoRoom> {
    if number >= 10 {
        push(text, b'0' + number / 10)?;
    }
    push(text, b'0' + number % 10)
}

// Bytes as a text; none where they aren't one.
fn text_of(alloc: Global, bytes: Vec<u8>) -> Result<String, NoRoom> {
    match String::from_utf8(bytes) {
        Ok(text) => Ok(text),
        Err(_) => from_str(alloc, ""),
    }
}

/// 33 nets n0 to n32 in a row, with n32 observed, no alarm, and a rate of 1 FIT for each fault.
pub fn chain(alloc: Global) -> Result<String, NoRoom> {
    let mut netlist = from_slice(alloc, b".model chain\n.inputs n0\n.outputs n32\n")?;
    for i in 0..32u8 {
        extend(&mut netlist, b".names n")?;
        put_number(&mut netlist, i)?;
        extend(&mut netlist, b" n")?;
        put_number(&mut netlist, i + 1)?;
        extend(&mut netlist, b"\n1 1\n")?;
    }
    extend(&mut netlist, b".end\n")?;
    text_of(alloc, netlist)
}

pub const WORKLOAD: &str = "workload,kind,n0\nw,mission,0\nw,mission,1\n";

pub const RATES: &str = "pattern,part,role,covered,permanent,transient\n*,all,mission,no,66,0\n";

pub const POINTS: &str = "kind,net\nobserve,n32\n";

/// The report of the chain. Its faults stand in the order of the nets: n32 is the second one, since outputs stand before tables.
pub fn chain_report(alloc: Global) -> Result<String, NoRoom> {
    let mut text = from_slice(alloc, CHAIN_HEAD.as_bytes())?;
    'nets: for net in 1..32u8 {
        for value in 0..2u8 {
            extend(&mut text, b"single-point n")?;
            put_number(&mut text, net)?;
            push(&mut text, b'/')?;
            put_number(&mut text, value)?;
            extend(&mut text, b" 1000000\n")?;
        }
    }
    extend(&mut text, b"end\n")?;
    text_of(alloc, text)
}

const CHAIN_HEAD: &str = "fmeda-report 1
nets 33 latches 0 faults 66 batches 2 workloads 1 cycles 2 ftti 0 asil D
part all mission uncovered permanent 66000000 transient 0 faults 66 safe 0 detected 0 residual 0 single-point 66 latent 0 outside 0 coverage 0/66000000
permanent all 66000000 danger 66000000 latent 0
transient all 0 danger 0
spfm permanent 0/66000000
spfm transient -
lfm -
term 66000000
target spfm permanent missed
target spfm transient -
target lfm -
target term missed
single-point n0/0 1000000
single-point n0/1 1000000
single-point n32/0 1000000
single-point n32/1 1000000
";

/// The chain's result file, its digest computed by another program.
pub const CHAIN_RESULT: &str =
    "fmeda-result 1 09d7b12b3b54e328d70fd6242e2773065f15608bec81eb9db165d74e45cde384 00000002
r 00000000 ffffffffffffffff 0000000000000000 0000000003d09000 0000000003d09000 0000000000000000 0000000000000000 0000000000000000
r 00000001 0000000000000003 0000000000000000 0000000003ef1480 0000000003ef1480 0000000000000000 0000000000000000 0000000000000000
";

/// The same with batch 1 first.
pub const CHAIN_RESULT_TURNED: &str =
    "fmeda-result 1 09d7b12b3b54e328d70fd6242e2773065f15608bec81eb9db165d74e45cde384 00000002
r 00000001 0000000000000003 0000000000000000 00000000001e8480 00000000001e8480 0000000000000000 0000000000000000 0000000000000000
r 00000000 ffffffffffffffff 0000000000000000 0000000003ef1480 0000000003ef1480 0000000000000000 0000000000000000 0000000000000000
";

/// The result file of the generated campaign of one stage, simulated by another program.
pub const ONE_STAGE_RESULT: &str =
    "fmeda-result 1 521ff920d87834efd8c708a36d3fd8e96c0b22845c1c9953cb0b6285fbbb2f77 00000001
r 00000000 000000000000000f 000000000000ffe0 0000000000c65d40 00000000002dc6c0 00000000000f4240 00000000005b8d80 0000000000000000
";

/// The summary of the generated campaign of one stage.
pub const ONE_STAGE_SUMMARY: &str = "gen 1
nets 7 latches 2 faults 16 batches 1 workloads 1 cycles 9 ftti 0 asil D
permanent all 13000000 danger 3000000 latent 1000000
transient all 6000000 danger 0
spfm permanent 10000000/13000000
spfm transient 6000000/6000000
lfm 9000000/10000000
term 3000000
target spfm permanent missed
target spfm transient met
target lfm met
target term met
end
";
