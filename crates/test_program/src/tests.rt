// Whole calls, with what they have to answer, to write and to leave.
use crate::call::{
    Failing, NOTHING, Texts, Written, call, files_of, holds, see, shelf_of, sink_of,
};
use crate::inputs::{
    CHAIN_RESULT, CHAIN_RESULT_TURNED, ONE_STAGE_RESULT, ONE_STAGE_SUMMARY, chain, chain_report,
};
use crate::steps::{Course, Step, course_of};
use crate::watch::{HoldsFirst, Watched};
use fm_shelf::sure::SureShelf;
use room::NoRoom;
use std::alloc::Global;
use std::sync::Wait;
use std::sync::atomic::AtomicU64;
use std::test::*;
use std::thread::Threads;
use worker_gate::{NoGate, PairGate};

const RUN: &str = "fmeda run net work rates points RES";

const RESUME: &str = "fmeda resume net work rates points RES";

const AUDIT: &str = "fmeda audit net work rates points RES";

const PROGRESS: &str = "fmeda progress net work rates points RES --asil B";

const RUN_BY_TWO: &str = "fmeda run net work rates points RES --workers 2";

// The exit status of a run over a shelf that never fails and keeps nothing.
fn code_over_a_sure_shelf<R: Threads + Wait + Sync>(
    rt: &R,
    alloc: Global,
    netlist: &str,
) -> Result<u8, NoRoom> {
    let mut out = sink_of(alloc, NOTHING)?;
    let shelf = SureShelf::new(alloc, files_of(alloc, netlist, b"")?)?;
    Ok(
        call(rt, alloc, RUN, shelf, &mut out, &NoGate)?
            .status
            .code(),
    )
}

#[test]
fn nothing_fails_over_a_sure_shelf(rt: HostRuntime) -> Result<(), Fail> {
    let netlist = chain(rt.alloc())?;
    let code = code_over_a_sure_shelf(&rt, rt.alloc(), netlist.as_str())?;
    drop(netlist);
    assert_eq!(rt; code, 0);
    Ok(())
}

// ---- workers

// Whether two workers met in one of three campaigns: a machine that has other work to do may start the second one late.
fn meet<R: Threads + Wait + Sync>(
    rt: &R,
    alloc: Global,
    netlist: &str,
    line: &str,
) -> Result<bool, NoRoom> {
    let texts = Texts {
        line,
        netlist,
        before: b"",
        text: b"",
        after: b"",
    };
    for _ in 0..3 {
        let gate = PairGate::new();
        let seen = see(rt, alloc, &texts, NOTHING, &gate)?;
        if seen.code == 0 && gate.met() {
            return Ok(true);
        }
    }
    Ok(false)
}

#[test]
fn two_workers_are_at_work_at_once(rt: HostRuntime) -> Result<(), Fail> {
    let netlist = chain(rt.alloc())?;
    let one = meet(&rt, rt.alloc(), netlist.as_str(), RUN)?;
    let two = meet(&rt, rt.alloc(), netlist.as_str(), RUN_BY_TWO)?;
    drop(netlist);
    assert_eq!(rt; (one, two), (false, true));
    Ok(())
}

// Whether batch 1 stands first, with the sums of its own prefix, where batch 0 is held until it does.
fn is_turned<R: Threads + Wait + Sync>(
    rt: &R,
    alloc: Global,
    netlist: &str,
    report: &str,
) -> Result<bool, NoRoom> {
    let appends = AtomicU64::new(0);
    let mut out = sink_of(alloc, NOTHING)?;
    let shelf = Watched::new(shelf_of(alloc, netlist, b"", NOTHING)?, &appends);
    let gate = HoldsFirst::new(&appends);
    let mut ended = call(rt, alloc, RUN_BY_TWO, shelf, &mut out, &gate)?;
    let turned = holds(alloc, &mut ended.shelf, CHAIN_RESULT_TURNED.as_bytes());
    Ok(turned && ended.status.code() == 0 && out.bytes() == report.as_bytes())
}

#[test]
fn a_batch_posted_first_stands_first(rt: HostRuntime) -> Result<(), Fail> {
    let (netlist, report) = (chain(rt.alloc())?, chain_report(rt.alloc())?);
    let turned = is_turned(&rt, rt.alloc(), netlist.as_str(), report.as_str())?;
    drop((netlist, report));
    assert!(rt; turned);
    Ok(())
}

// ---- calls that fail

// Each input is read in one piece, and once more at its end; so is a result file.
const RUN_STEPS: [Step; 12] = [
    Step::Read("net"),
    Step::Read("net"),
    Step::Read("work"),
    Step::Read("work"),
    Step::Read("rates"),
    Step::Read("rates"),
    Step::Read("points"),
    Step::Read("points"),
    Step::Cut(0),
    Step::Append(89),
    Step::Append(130),
    Step::Append(130),
];

// The first row is kept, and the torn rest is cut off.
const RESUME_STEPS: [Step; 12] = [
    Step::Read("net"),
    Step::Read("net"),
    Step::Read("work"),
    Step::Read("work"),
    Step::Read("rates"),
    Step::Read("rates"),
    Step::Read("points"),
    Step::Read("points"),
    Step::Read("RES"),
    Step::Read("RES"),
    Step::Cut(219),
    Step::Append(130),
];

// A header that is torn is begun anew.
const ANEW_STEPS: [Step; 14] = [
    Step::Read("net"),
    Step::Read("net"),
    Step::Read("work"),
    Step::Read("work"),
    Step::Read("rates"),
    Step::Read("rates"),
    Step::Read("points"),
    Step::Read("points"),
    Step::Read("RES"),
    Step::Read("RES"),
    Step::Cut(0),
    Step::Append(89),
    Step::Append(130),
    Step::Append(130),
];

const AUDIT_STEPS: [Step; 10] = [
    Step::Read("net"),
    Step::Read("net"),
    Step::Read("work"),
    Step::Read("work"),
    Step::Read("rates"),
    Step::Read("rates"),
    Step::Read("points"),
    Step::Read("points"),
    Step::Read("RES"),
    Step::Read("RES"),
];

const PARTS_STEPS: [Step; 4] = [
    Step::Read("net"),
    Step::Read("net"),
    Step::Read("rates"),
    Step::Read("rates"),
];

const GEN_STEPS: [Step; 3] = [Step::Cut(0), Step::Append(89), Step::Append(130)];

// A course over the chain, with what it is to write and to leave.
fn texts_of<'a>(
    course: &Course<'a>,
    netlist: &'a str,
    text: &'a [u8],
    after: &'a [u8],
) -> Texts<'a> {
    Texts {
        line: course.line,
        netlist,
        before: course.before,
        text,
        after,
    }
}

// Whether all is as worked out where no call fails, and the number of writes.
fn ends_clean<'a, R: Threads + Wait + Sync>(
    rt: &R,
    alloc: Global,
    netlist: &'a str,
    course: &Course<'a>,
) -> Result<(bool, u64), NoRoom> {
    let texts = texts_of(course, netlist, course.text, course.after);
    let seen = see(rt, alloc, &texts, NOTHING, &NoGate)?;
    let right = seen.is(0, Written::Whole, 0, 0) && seen.calls == course.steps.len() as u64;
    Ok((right, seen.writes))
}

// Whether all is as worked out where one step fails, and the refusal's line can be written or can't.
fn ends_after<'a, R: Threads + Wait + Sync>(
    rt: &R,
    alloc: Global,
    netlist: &'a str,
    course: &Course<'a>,
    number: usize,
    taken: u64,
    out: &[u64],
) -> Result<bool, NoRoom> {
    let Some(step) = course.steps.get(number) else {
        return Ok(false);
    };
    let (code, line) = course.refusal(*step);
    let line = if out.is_empty() { line } else { "" };
    let after = course.held(number, taken as usize);
    let texts = texts_of(course, netlist, line.as_bytes(), after);
    let failing = Failing {
        shelf: &[number as u64 + 1],
        taken,
        out,
    };
    let seen = see(rt, alloc, &texts, failing, &NoGate)?;
    Ok(seen.is(code, Written::Whole, 1, out.len() as u64))
}

// Whether all is as worked out where one write of the text fails.
fn ends_silent<'a, R: Threads + Wait + Sync>(
    rt: &R,
    alloc: Global,
    netlist: &'a str,
    course: &Course<'a>,
    write: u64,
) -> Result<bool, NoRoom> {
    let texts = texts_of(course, netlist, course.text, course.after);
    let failing = Failing {
        shelf: &[],
        taken: 0,
        out: &[write],
    };
    let seen = see(rt, alloc, &texts, failing, &NoGate)?;
    Ok(seen.is(21, Written::Part, 0, 1))
}

/// What `progress` says of the chain's first row. No part is a mechanism, so no planes have a latent fault, and all faults of the
/// row are dangerous: LFM is 1 where it has a value.
const CHAIN_PROGRESS: &str = "rows 1 of 2
judged permanent 64000000 of 66000000
judged transient 0 of 0
spfm permanent from 0/66000000 to 2000000/66000000
spfm transient from - to -
lfm from 2000000/2000000 to 2000000/2000000
term from 64000000 to 66000000
target spfm permanent missed
target spfm transient -
target lfm met
target term met
";

const CHAIN_PARTS: &str = "pattern * part all role mission covered no nets 33 latches 0 first n0
unmatched 0 first -
";

// The commands over the chain, each of whose calls fails in turn.
fn courses<'a>(report: &'a [u8]) -> [Course<'a>; 7] {
    let whole = CHAIN_RESULT.as_bytes();
    let (row, torn) = (&whole[..226], &whole[..50]);
    let old = b"what was there before";
    [
        course_of(RUN, old, &RUN_STEPS, whole, report),
        course_of(RESUME, row, &RESUME_STEPS, whole, report),
        course_of(RESUME, torn, &ANEW_STEPS, whole, report),
        course_of(
            AUDIT,
            whole,
            &AUDIT_STEPS,
            whole,
            b"audit 2 of 2 rows agree\n",
        ),
        course_of(PROGRESS, row, &AUDIT_STEPS, row, CHAIN_PROGRESS.as_bytes()),
        course_of(
            "fmeda parts net rates",
            old,
            &PARTS_STEPS,
            old,
            CHAIN_PARTS.as_bytes(),
        ),
        course_of(
            "fmeda gen 1 RES",
            old,
            &GEN_STEPS,
            ONE_STAGE_RESULT.as_bytes(),
            ONE_STAGE_SUMMARY.as_bytes(),
        ),
    ]
}

// How many bytes of an append are taken, and which write of the output fails.
const FAILURES: [(u64, &[u64]); 4] = [(0, &[]), (1, &[]), (88, &[]), (0, &[1])];

// The first failing call after which a course doesn't end as it is to: a step of its shelf, from 1, or, past these, a write.
fn first_odd<'a, R: Threads + Wait + Sync>(
    rt: &R,
    alloc: Global,
    netlist: &'a str,
    course: &Course<'a>,
    writes: u64,
) -> Result<Option<u64>, NoRoom> {
    for number in 0..course.steps.len() {
        for (taken, out) in FAILURES {
            if !ends_after(rt, alloc, netlist, course, number, taken, out)? {
                return Ok(Some(number as u64 + 1));
            }
        }
    }
    for write in 1..=writes {
        if !ends_silent(rt, alloc, netlist, course, write)? {
            return Ok(Some((course.steps.len() as u64).saturating_add(write)));
        }
    }
    Ok(None)
}

#[test]
fn each_call_that_fails_leaves_what_it_may(rt: HostRuntime) -> Result<(), Fail> {
    let alloc: Global = rt.alloc();
    let (netlist, report) = (chain(alloc)?, chain_report(alloc)?);
    for course in courses(report.as_bytes()) {
        let (right, writes) = ends_clean(&rt, alloc, netlist.as_str(), &course)?;
        assert!(rt; right, "{}", course.line);
        let odd = first_odd(&rt, alloc, netlist.as_str(), &course, writes)?;
        assert_eq!(rt; odd, None, "{}", course.line);
    }
    Ok(())
}
