// The answer to each net alone.
ghost use Rattle.std.specs.Prelude.{◌≡◌, ◌+◌, ◌≤◌, ◌<◌, ℕ, length, All, IfOk};
ghost use Rattle.circuit.specs.Sound.{IsNet};
ghost use Rattle.claim_search.specs.Question.{IsSearched, MayBePosed};
ghost use Rattle.claim_search.specs.Sites.{IsReady};
ghost use Rattle.always_answers.specs.Steps.{AreAlone, AreFree, AreSeen, IsSpread, MarksOpen, is_none, is_open};

use crate::answers::NoAnswers;
use crate::nets::nets_of_part;
use circuit::parts::NetId;
use claim_search::{Answer, AnswerSearch, Contradiction, Posed, Searched};
use room::{NoRoom, filled, push, with_room};
use std::alloc::Global;

// Writes an answer at the number of each net.
fn spread(answers: &mut [Answer], nets: &[NetId], found: &[Answer])
    requires inside { All (λ net. net.0 < length answers.old) nets.now }
    requires size { length found.now ≡ length nets.now }
    ensures { (n : ℕ) → IsSpread (length nets.now) nets.now found.now answers.old answers.new n }
{
    for (i, net) in nets.iter().enumerate() {
        answers[net.0 as usize] = found[i];
    }
}

// The answers to the nets of a part that lead to an observation net, whatever goes wrong at one of them.
fn ask_part(
    alloc: Global,
    search: &mut AnswerSearch,
    searched: &Searched<'_>,
    posed: &Posed<'_>,
    parts: &[u32],
    part: u32,
    seen: &[bool],
    free: &mut [Answer],
) -> Result<(), NoRoom>
    requires searched { IsSearched searched.now }
    requires posed { MayBePosed searched.now.netlist.now posed.now }
    requires ready { IsReady searched.now posed.now search.old }
    requires parts { length parts.now ≡ length searched.now.netlist.now.drivers }
    requires seen { length seen.now ≡ length searched.now.netlist.now.drivers }
    requires free { length free.old ≡ length searched.now.netlist.now.drivers }
    ensures ready { IsReady searched.now posed.now search.new }
    ensures size { length free.new ≡ length free.old }
    ensures alone { IfOk result (λ done. AreAlone searched.now.netlist.now posed.now parts.now seen.now part free.old
        → AreAlone searched.now.netlist.now posed.now parts.now seen.now (part + 1) free.new) }
{
    let nets = nets_of_part(alloc, parts, part, seen, true)?;
    let mut found = filled(alloc, Answer::Open, nets.len())?;
    search.answer_free(searched, posed, &nets, &mut found, 0, nets.len());
    spread(free, &nets, &found);
    Ok(())
}

/// The answers to all nets that lead to an observation net, whatever goes wrong at one of them; those of others are anything. The nets of
/// a part are asked of together.
pub(crate) fn free_answers(
    alloc: Global,
    search: &mut AnswerSearch,
    searched: &Searched<'_>,
    posed: &Posed<'_>,
    parts: &[u32],
    part_count: u32,
    seen: &[bool],
) -> Result<Vec<Answer>, NoRoom>
    requires searched { IsSearched searched.now }
    requires posed { MayBePosed searched.now.netlist.now posed.now }
    requires ready { IsReady searched.now posed.now search.old }
    requires parts { length parts.now ≡ length searched.now.netlist.now.drivers }
    requires within { All (λ part. part < part_count) parts.now }
    requires seen { length seen.now ≡ length searched.now.netlist.now.drivers }
    ensures ready { IsReady searched.now posed.now search.new }
    ensures free { IfOk result (λ free. (length free.items ≡ length searched.now.netlist.now.drivers)
        × AreFree searched.now.netlist.now posed.now seen.now free.items) }
{
    let mut free = filled(alloc, Answer::Open, parts.len())?;
    for part in 0..part_count {
        ask_part(alloc, search, searched, posed, parts, part, seen, &mut free)?;
    }
    Ok(free)
}

// Whether an answer is that the claim is open, or that there are no runs.
fn is_open(answer: Answer) -> bool
    ensures { result ≡ is_open answer }
{
    matches!(answer, Answer::Open)
}

fn is_none(answer: Answer) -> bool
    ensures { result ≡ is_none answer }
{
    matches!(answer, Answer::NoRuns)
}

/// A mark for each net that is open alone.
pub(crate) fn open_nets(
    alloc: Global,
    free: &[Answer],
    seen: &[bool],
) -> Result<Vec<bool>, NoAnswers>
    requires { length free.now ≡ length seen.now }
    ensures { MarksOpen free.now seen.now result }
{
    let mut open = with_room(alloc, seen.len())?;
    for n in 0..seen.len() {
        if seen[n] && is_none(free[n]) {
            return Err(NoAnswers::Contradiction(Contradiction::Held));
        }
        push(&mut open, seen[n] && is_open(free[n]))?;
    }
    Ok(open)
}
