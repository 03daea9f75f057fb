// Claims about some nets, which have one site.
ghost use Rattle.std.specs.Prelude.{◌≡◌, ◌≢◌, ◌≤◌, ◌<◌, ◌+◌, ◌*◌, ◌^◌, ◌⊎◌, ℕ, length, All, IfOk};
ghost use Rattle.circuit.specs.Order.{net_at};
ghost use Rattle.circuit.specs.Sound.{IsNet};
ghost use Rattle.coverage_claim.specs.Claim.{Claim};
ghost use Rattle.region_search.specs.Search.{places_of};
ghost use Rattle.claim_search.specs.Answer.{IsAnswer, IsProvedWithSome};
ghost use Rattle.claim_search.specs.Forced.{AreThoseFor, with_length};
ghost use Rattle.claim_search.specs.Question.{IsPosed, IsSearched, MayBePosed};
ghost use Rattle.claim_search.specs.Sites.{IsAnswerAt, IsAt, IsReady, LiesWithin, answer_at, site_at};

use crate::answer::{Answer, answer_by_cases, answer_if_proved, forced_pairs};
use crate::lead::lead_in;
use crate::question::{Posed, Question, Searched};
use crate::window::WindowSearch;
use circuit::parts::NetId;
use coverage_claim::Site;
use pair_sets::PairSet;
use region_search::Search;
use room::{NoRoom, filled};
use std::alloc::Global;

/// What a search for answers works with.
#[derive(Drop)]
pub struct AnswerSearch {
    /// A search of one frame, for the cycles before a claim.
    pub lead: Search,
    pub window: WindowSearch,
    /// The pairs that each latch may show.
    pub starts: Vec<PairSet>,
    /// Those with which each latch has to start, wherever nets may stay as they are.
    pub forced: Vec<PairSet>,
    /// What faults may do at each net: between two answers nothing anywhere.
    pub sites: Vec<Site>,
}

// Gives some nets a site.
fn mark(sites: &mut [Site], nets: &[NetId], site: Site)
    requires { All (λ net. net.0 < length sites.old) nets.now }
    ensures there { All (λ net. site_at sites.new net.0 ≡ site) nets.now }
    ensures elsewhere { (n : ℕ) → All (λ net. net.0 ≢ n) nets.now → site_at sites.new n ≡ site_at sites.old n }
{
    for net in nets {
        sites[net.0 as usize] = site;
    }
}

// Writes an answer at each place from one to another.
fn note(answers: &mut [Answer], start: usize, end: usize, answer: Answer)
    requires order { start ≤ end }
    requires inside { end ≤ length answers.old }
    ensures there { (i : ℕ) → start ≤ i → i < end → answer_at answers.new i ≡ answer }
    ensures others { (i : ℕ) → (i < start) ⊎ (end ≤ i) → answer_at answers.new i ≡ answer_at answers.old i }
{
    for i in start..end {
        answers[i] = answer;
    }
}

// The pairs that are forced where nets have this site. Where they are held at a value none is known to be.
fn forced_for(forced: &[PairSet], site: Site) -> &[PairSet]
    ensures { AreThoseFor site forced.now result.now }
{
    match site {
        Site::Free => forced,
        Site::Intact | Site::Only(_) => &[],
    }
}

// The most nets of a netlist in which pairs are tried by cases.
const MOST_NETS_BY_CASES: usize = 4096;

// Whether cases are tried, where they are asked for: in a netlist of many nets they take a minute for each open net.
fn are_tried(searched: &Searched<'_>, by_cases: bool) -> bool {
    by_cases && searched.netlist.nets() <= MOST_NETS_BY_CASES
}

impl AnswerSearch {
    /// A search for what is posed of a netlist. It takes the memory of all that it does: three bytes for each net and frame of a window, and
    /// a few for each net and latch.
    pub fn new(
        alloc: Global,
        searched: &Searched<'_>,
        posed: &Posed<'_>,
    ) -> Result<AnswerSearch, NoRoom>
        requires searched { IsSearched searched.now }
        requires frames { posed.now.window + posed.now.ahead + 1 ≤ 2 ^ 16 }
        requires few { (posed.now.window + posed.now.ahead + 1) * places_of searched.now.watchers.now < 2 ^ 32 }
        ensures { IfOk result (IsReady searched.now posed.now) }
    {
        let frames = posed.window as usize + posed.ahead as usize + 1;
        Ok(AnswerSearch {
            lead: Search::new(alloc, searched.netlist, searched.watchers, 1)?,
            window: WindowSearch::new(alloc, searched, frames)?,
            starts: filled(alloc, PairSet::NONE, searched.netlist.latches().len())?,
            forced: filled(alloc, PairSet::NONE, searched.netlist.latches().len())?,
            sites: filled(alloc, Site::Intact, searched.netlist.nets())?,
        })
    }

    /// A search with a shorter window, which knows the same pairs to be forced. It takes as much memory as `new`.
    pub fn shorter(
        &self,
        alloc: Global,
        searched: &Searched<'_>,
        posed: &Posed<'_>,
        window: u32,
    ) -> Result<AnswerSearch, NoRoom>
        requires searched { IsSearched searched.now }
        requires ready { IsReady searched.now posed.now self.now }
        requires less { window ≤ posed.now.window }
        requires frames { posed.now.window + posed.now.ahead + 1 ≤ 2 ^ 16 }
        requires few { (posed.now.window + posed.now.ahead + 1) * places_of searched.now.watchers.now < 2 ^ 32 }
        ensures { IfOk result (IsReady searched.now (with_length posed.now window)) }
    {
        let shorter = Posed { window, ..*posed };
        let mut made = AnswerSearch::new(alloc, searched, &shorter)?;
        made.forced.copy_from_slice(&self.forced);
        Ok(made)
    }

    /// Looks for the pairs with which each latch has to start, wherever nets may stay as they are: those with which windows go on where
    /// nothing is done anywhere. Each claim in whose region nets are free begins with them, and needs few looks more.
    pub fn find_forced(&mut self, searched: &Searched<'_>, posed: &Posed<'_>)
        requires searched { IsSearched searched.now }
        requires posed { MayBePosed searched.now.netlist.now posed.now }
        requires ready { IsReady searched.now posed.now self.old }
        ensures ready { IsReady searched.now posed.now self.new }
    {
        let question = Question {
            posed: *posed,
            sites: &self.sites,
        };
        forced_pairs(
            &mut self.lead,
            &mut self.window,
            searched,
            &question,
            &mut self.forced,
        );
    }

    /// The answer to a claim in whose region these nets have this site, and all others are intact; where it is open, by cases too, if they are
    /// asked for and the netlist has at most 4,096 nets.
    pub fn answer(
        &mut self,
        searched: &Searched<'_>,
        posed: &Posed<'_>,
        nets: &[NetId],
        site: Site,
        by_cases: bool,
    ) -> Answer
        requires searched { IsSearched searched.now }
        requires posed { MayBePosed searched.now.netlist.now posed.now }
        requires ready { IsReady searched.now posed.now self.old }
        requires nets { All (IsNet searched.now.netlist.now) nets.now }
        ensures ready { IsReady searched.now posed.now self.new }
        ensures answer { (claim : Claim) → IsPosed searched.now.netlist.now posed.now claim → IsAt nets.now site claim.region → IsAnswer claim result }
    {
        mark(&mut self.sites, nets, site);
        let question = Question {
            posed: *posed,
            sites: &self.sites,
        };
        let forced = forced_for(&self.forced, site);
        let answer = answer_by_cases(
            &mut self.lead,
            &mut self.window,
            searched,
            &question,
            forced,
            &mut self.starts,
            are_tried(searched, by_cases),
        );
        mark(&mut self.sites, nets, Site::Intact);
        answer
    }

    // The answer to a claim that is proved, in whose region these nets are free: the cycles before it are gone through, and no window.
    fn answer_proved(
        &mut self,
        searched: &Searched<'_>,
        posed: &Posed<'_>,
        nets: &[NetId],
    ) -> Answer
        requires searched { IsSearched searched.now }
        requires posed { MayBePosed searched.now.netlist.now posed.now }
        requires ready { IsReady searched.now posed.now self.old }
        requires nets { All (IsNet searched.now.netlist.now) nets.now }
        ensures ready { IsReady searched.now posed.now self.new }
        ensures answer { (claim : Claim) → IsPosed searched.now.netlist.now posed.now claim → IsAt nets.now Site.Free claim.region → IsProvedWithSome claim → IsAnswer claim result }
    {
        mark(&mut self.sites, nets, Site::Free);
        let question = Question {
            posed: *posed,
            sites: &self.sites,
        };
        let led = lead_in(&mut self.lead, searched, &question, &mut self.starts);
        mark(&mut self.sites, nets, Site::Intact);
        answer_if_proved(led)
    }

    // As `answer_free`, where each claim is proved in whose region nothing happens elsewhere: what is left to ask is whether an observation
    // net may differ before its first cycle.
    fn answer_early(
        &mut self,
        searched: &Searched<'_>,
        posed: &Posed<'_>,
        nets: &[NetId],
        answers: &mut [Answer],
        start: usize,
        end: usize,
    )
        requires searched { IsSearched searched.now }
        requires posed { MayBePosed searched.now.netlist.now posed.now }
        requires ready { IsReady searched.now posed.now self.old }
        requires nets { All (IsNet searched.now.netlist.now) nets.now }
        requires order { start ≤ end }
        requires inside { end ≤ length nets.now }
        requires size { length answers.old ≡ length nets.now }
        requires proved { (claim : Claim) → IsPosed searched.now.netlist.now posed.now claim → LiesWithin nets.now start end claim.region → IsProvedWithSome claim }
        ensures ready { IsReady searched.now posed.now self.new }
        ensures each { (claim : Claim) → IsPosed searched.now.netlist.now posed.now claim → (i : ℕ) → start ≤ i → i < end
            → IsAnswerAt claim (net_at nets.now i) Site.Free (answer_at answers.new i) }
        ensures others { (i : ℕ) → (i < start) ⊎ (end ≤ i) → answer_at answers.new i ≡ answer_at answers.old i }
    {
        if start == end {
            return;
        }
        let whole = self.answer_proved(searched, posed, &nets[start..end]);
        if whole.is_of_parts() {
            note(answers, start, end, whole);
            return;
        }
        if start + 1 == end {
            answers[start] = whole;
            return;
        }
        let middle = start + (end - start) / 2;
        self.answer_early(searched, posed, nets, answers, start, middle);
        self.answer_early(searched, posed, nets, answers, middle, end);
    }

    /// The answers to claims in whose regions one of these nets is free, for the nets from one place to another. All of them are asked of at
    /// once; where that tells nothing of each, they are halved. So few open nets of many cost few answers. All nets at once, and each
    /// by itself, are asked of by cases too. Where the claim about all of them is proved so is that about each, and of halves only the cycles
    /// before it are asked.
    pub fn answer_free(
        &mut self,
        searched: &Searched<'_>,
        posed: &Posed<'_>,
        nets: &[NetId],
        answers: &mut [Answer],
        start: usize,
        end: usize,
    )
        requires searched { IsSearched searched.now }
        requires posed { MayBePosed searched.now.netlist.now posed.now }
        requires ready { IsReady searched.now posed.now self.old }
        requires nets { All (IsNet searched.now.netlist.now) nets.now }
        requires order { start ≤ end }
        requires inside { end ≤ length nets.now }
        requires size { length answers.old ≡ length nets.now }
        ensures ready { IsReady searched.now posed.now self.new }
        ensures each { (claim : Claim) → IsPosed searched.now.netlist.now posed.now claim → (i : ℕ) → start ≤ i → i < end
            → IsAnswerAt claim (net_at nets.now i) Site.Free (answer_at answers.new i) }
        ensures others { (i : ℕ) → (i < start) ⊎ (end ≤ i) → answer_at answers.new i ≡ answer_at answers.old i }
    {
        if start == end {
            return;
        }
        let by_cases = end - start == 1 || end - start == nets.len();
        let whole = self.answer(searched, posed, &nets[start..end], Site::Free, by_cases);
        if whole.is_of_parts() {
            note(answers, start, end, whole);
            return;
        }
        if whole.is_early() {
            self.answer_early(searched, posed, nets, answers, start, end);
            return;
        }
        if start + 1 == end {
            answers[start] = whole;
            return;
        }
        let middle = start + (end - start) / 2;
        self.answer_free(searched, posed, nets, answers, start, middle);
        self.answer_free(searched, posed, nets, answers, middle, end);
    }
}
