// The answers to all parts.
ghost use Rattle.std.specs.Prelude.{◌≡◌, ◌+◌, ◌≤◌, ◌<◌, ◌^◌, ◌&&◌, ◌==◌, true, false, ℕ, length, All, count_by, slice_index};
ghost use Rattle.circuit.specs.Order.{net_at};
ghost use Rattle.circuit.specs.Value.{bit_at};
ghost use Rattle.claim_search.specs.Question.{IsSearched, MayBePosed};
ghost use Rattle.claim_search.specs.Sites.{IsReady};
ghost use Rattle.fm_base.specs.Lists.{below};
ghost use Rattle.always_answers.specs.PartSteps.{AnswersPart, AnswersParts, AreParts, ArePartsSoFar, IsTried, TriesAll, with_shorter};

use crate::answers::{NoAnswers, PartAnswer};
use crate::nets::nets_of_part;
use circuit::parts::NetId;
use claim_search::{Answer, AnswerSearch, Contradiction, Posed, Searched};
use coverage_claim::Site;
use room::{push, with_room};
use std::alloc::Global;

/// The number of each net's part, and two marks for each net.
#[derive(Clone, Copy)]
pub(crate) struct Parts<'a> {
    pub(crate) of_nets: &'a [u32],
    /// It leads to an observation net.
    pub(crate) seen: &'a [bool],
    /// It is open alone.
    pub(crate) open: &'a [bool],
}

// Whether one of these nets has no mark.
fn has_unmarked(nets: &[NetId], marks: &[bool]) -> bool
    requires { All (λ net. net.0 < length marks.now) nets.now }
    ensures some { result ≡ true → (i : ℕ) × (i < length nets.now) × (bit_at marks.now (net_at nets.now i).0 ≡ false) }
    ensures none { result ≡ false → (i : ℕ) → i < length nets.now → bit_at marks.now (net_at nets.now i).0 ≡ true }
{
    for net in nets {
        if !marks[net.0 as usize] {
            return true;
        }
    }
    false
}

// How many nets of a part have a mark.
fn marked_count(of_nets: &[u32], part: u32, marks: &[bool]) -> u32
    requires size { length marks.now ≡ length of_nets.now }
    requires few { length of_nets.now ≤ 2 ^ 18 }
    ensures { result ≡ count_by (λ net. (slice_index of_nets.now net == part) && bit_at marks.now net) (below (length of_nets.now)) }
{
    let mut count = 0;
    for n in 0..of_nets.len() {
        if of_nets[n] == part && marks[n] {
            count += 1;
        }
    }
    count
}

// The answer to a part with the greatest window.
fn answer_part(
    alloc: Global,
    search: &mut AnswerSearch,
    searched: &Searched<'_>,
    posed: &Posed<'_>,
    parts: &Parts<'_>,
    part: u32,
) -> Result<PartAnswer, NoAnswers>
    requires searched { IsSearched searched.now }
    requires posed { MayBePosed searched.now.netlist.now posed.now }
    requires ready { IsReady searched.now posed.now search.old }
    requires parts { AreParts searched.now.netlist.now posed.now parts.now }
    ensures ready { IsReady searched.now posed.now search.new }
    ensures answer { AnswersPart searched.now.netlist.now posed.now parts.now part result }
{
    let seen = nets_of_part(alloc, parts.of_nets, part, parts.seen, true)?;
    if seen.is_empty() {
        return Ok(PartAnswer::NoPath);
    }
    if !has_unmarked(&seen, parts.open) {
        return Ok(PartAnswer::Alone);
    }
    let nets = nets_of_part(alloc, parts.of_nets, part, parts.open, false)?;
    match search.answer(searched, posed, &nets, Site::Free, true) {
        Answer::Open => Ok(PartAnswer::Alone),
        Answer::NoRuns => Err(NoAnswers::Contradiction(Contradiction::Held)),
        Answer::Alarmed | Answer::Early => Ok(PartAnswer::Whole {
            open: marked_count(parts.of_nets, part, parts.open),
            window: posed.window,
        }),
    }
}

// The answers to all parts with the greatest window.
fn widest_answers(
    alloc: Global,
    search: &mut AnswerSearch,
    searched: &Searched<'_>,
    posed: &Posed<'_>,
    parts: &Parts<'_>,
    part_count: u32,
) -> Result<Vec<PartAnswer>, NoAnswers>
    requires searched { IsSearched searched.now }
    requires posed { MayBePosed searched.now.netlist.now posed.now }
    requires ready { IsReady searched.now posed.now search.old }
    requires parts { AreParts searched.now.netlist.now posed.now parts.now }
    ensures ready { IsReady searched.now posed.now search.new }
    ensures answers { AnswersParts searched.now.netlist.now posed.now parts.now part_count 0 result }
{
    let mut answers = with_room(alloc, part_count as usize)?;
    for part in 0..part_count {
        push(
            &mut answers,
            answer_part(alloc, search, searched, posed, parts, part)?,
        )?;
    }
    Ok(answers)
}

// The answer to a part that is covered as a whole with the greatest window, where a shorter one is tried.
fn try_part(
    alloc: Global,
    search: &mut AnswerSearch,
    searched: &Searched<'_>,
    shorter: &Posed<'_>,
    parts: &Parts<'_>,
    part: u32,
    answer: PartAnswer,
    greatest: u32,
) -> Result<PartAnswer, NoAnswers>
    requires searched { IsSearched searched.now }
    requires posed { MayBePosed searched.now.netlist.now shorter.now }
    requires ready { IsReady searched.now shorter.now search.old }
    requires parts { AreParts searched.now.netlist.now shorter.now parts.now }
    requires less { shorter.now.window < greatest }
    ensures ready { IsReady searched.now shorter.now search.new }
    ensures answer { IsTried searched.now.netlist.now shorter.now greatest parts.now part answer result }
{
    let PartAnswer::Whole { open, window } = answer else {
        return Ok(answer);
    };
    if window < greatest {
        return Ok(answer);
    }
    let nets = nets_of_part(alloc, parts.of_nets, part, parts.open, false)?;
    match search.answer(searched, shorter, &nets, Site::Free, false) {
        Answer::Open => Ok(answer),
        Answer::NoRuns => Err(NoAnswers::Contradiction(Contradiction::Held)),
        Answer::Alarmed | Answer::Early => Ok(PartAnswer::Whole {
            open,
            window: shorter.window,
        }),
    }
}

// A shorter window is tried for all parts that are covered as a whole with the greatest one.
fn try_window(
    alloc: Global,
    search: &mut AnswerSearch,
    searched: &Searched<'_>,
    shorter: &Posed<'_>,
    greatest: u32,
    parts: &Parts<'_>,
    answers: &mut [PartAnswer],
) -> Result<(), NoAnswers>
    requires searched { IsSearched searched.now }
    requires posed { MayBePosed searched.now.netlist.now shorter.now }
    requires ready { IsReady searched.now shorter.now search.old }
    requires parts { AreParts searched.now.netlist.now shorter.now parts.now }
    requires less { shorter.now.window < greatest }
    requires few { length answers.old < 2 ^ 32 }
    requires so_far { ArePartsSoFar searched.now.netlist.now (with_shorter shorter.now greatest) parts.now (length answers.old) shorter.now.window answers.old }
    ensures size { length answers.new ≡ length answers.old }
    ensures tried { TriesAll searched.now.netlist.now (with_shorter shorter.now greatest) parts.now (shorter.now.window + 1) answers.new result }
{
    for part in 0..answers.len() {
        let answer = answers[part];
        answers[part] = try_part(
            alloc,
            search,
            searched,
            shorter,
            parts,
            part as u32,
            answer,
            greatest,
        )?;
    }
    Ok(())
}

// The least window of each part that is covered as a whole. A search of its own is made for each window, which knows the same pairs to be
// forced, and all parts are tried with it.
fn find_least(
    alloc: Global,
    search: &AnswerSearch,
    searched: &Searched<'_>,
    posed: &Posed<'_>,
    parts: &Parts<'_>,
    answers: &mut [PartAnswer],
) -> Result<(), NoAnswers>
    requires searched { IsSearched searched.now }
    requires posed { MayBePosed searched.now.netlist.now posed.now }
    requires frames { posed.now.window + posed.now.ahead + 1 ≤ 2 ^ 11 }
    requires ready { IsReady searched.now posed.now search.now }
    requires parts { AreParts searched.now.netlist.now posed.now parts.now }
    requires few { length answers.old < 2 ^ 32 }
    requires so_far { ArePartsSoFar searched.now.netlist.now posed.now parts.now (length answers.old) 0 answers.old }
    ensures tried { TriesAll searched.now.netlist.now posed.now parts.now posed.now.window answers.new result }
{
    for window in 0..posed.window {
        let shorter = Posed { window, ..*posed };
        let mut trial = search.shorter(alloc, searched, posed, window)?;
        try_window(
            alloc,
            &mut trial,
            searched,
            &shorter,
            posed.window,
            parts,
            answers,
        )?;
    }
    Ok(())
}

/// The answers to all parts.
pub(crate) fn part_answers(
    alloc: Global,
    search: &mut AnswerSearch,
    searched: &Searched<'_>,
    posed: &Posed<'_>,
    parts: &Parts<'_>,
    part_count: u32,
) -> Result<Vec<PartAnswer>, NoAnswers>
    requires searched { IsSearched searched.now }
    requires posed { MayBePosed searched.now.netlist.now posed.now }
    requires frames { posed.now.window + posed.now.ahead + 1 ≤ 2 ^ 11 }
    requires ready { IsReady searched.now posed.now search.old }
    requires parts { AreParts searched.now.netlist.now posed.now parts.now }
    ensures { AnswersParts searched.now.netlist.now posed.now parts.now part_count posed.now.window result }
{
    let mut answers = widest_answers(alloc, search, searched, posed, parts, part_count)?;
    find_least(alloc, search, searched, posed, parts, &mut answers)?;
    Ok(answers)
}
