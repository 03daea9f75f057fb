// The ends of the metrics, and how their targets stand.
ghost use Rattle.std.specs.Prelude.{◌≡◌, ◌≤◌};
ghost use Rattle.metric_bounds.specs.Bounds.{lfm_ends as lfm_of, standing as standing_by, standing_of, term_standing as term_stands};
ghost use Rattle.metric_bounds.specs.Steps.{greatest_term as greatest_of, least_term as least_of, spfm_permanent_ends as permanent_of, spfm_transient_ends as transient_of};
ghost use Rattle.metric_bounds.specs.Progress.{AreAllConsistent};

use crate::{EndSums, Ends, Standing};
use metric_sums::{Asil, Sums};

// How a target stands, by whether the worst and the best value meet it.
fn standing(worst: bool, best: bool) -> Standing
    ensures { result ≡ standing_by worst best }
{
    match (worst, best) {
        (true, _) => Standing::Met,
        (false, true) => Standing::Open,
        (false, false) => Standing::Missed,
    }
}

impl EndSums {
    /// The ends of the single-point fault metric over permanent faults.
    pub fn spfm_permanent(&self) -> Ends
        requires { AreAllConsistent self.now }
        ensures { result ≡ permanent_of self.now }
    {
        Ends {
            least: self.worst.spfm_permanent(),
            greatest: self.best.spfm_permanent(),
        }
    }

    /// The ends of the single-point fault metric over transient faults.
    pub fn spfm_transient(&self) -> Ends
        requires { AreAllConsistent self.now }
        ensures { result ≡ transient_of self.now }
    {
        Ends {
            least: self.worst.spfm_transient(),
            greatest: self.best.spfm_transient(),
        }
    }

    /// The ends of the latent fault metric.
    pub fn lfm(&self) -> Ends
        requires { AreAllConsistent self.now }
        ensures { result ≡ lfm_of self.now }
    {
        Ends {
            least: self.most_latent.lfm().or(self.best.lfm()),
            greatest: self.best.lfm(),
        }
    }

    /// The least single-point and residual term.
    pub fn least_term(&self) -> u64
        requires { AreAllConsistent self.now }
        ensures { result ≡ least_of self.now }
    {
        self.best.term()
    }

    /// The greatest single-point and residual term.
    pub fn greatest_term(&self) -> u64
        requires { AreAllConsistent self.now }
        ensures { result ≡ greatest_of self.now }
    {
        self.worst.term()
    }

    /// How the limit of the term stands.
    pub fn term_standing(&self, asil: Asil) -> Standing
        requires { AreAllConsistent self.now }
        ensures { result ≡ term_stands asil self.now }
    {
        let limit = asil.pmhf_target();
        standing(self.greatest_term() < limit, self.least_term() < limit)
    }
}

impl Ends {
    /// How a percentage stands, where the metric has a value in some planes.
    pub fn standing(&self, percent: u64) -> Option<Standing>
        requires { percent ≤ 100 }
        ensures { result ≡ standing_of percent self.now }
    {
        match (self.least, self.greatest) {
            (Some(least), Some(greatest)) => {
                Some(standing(least.meets(percent), greatest.meets(percent)))
            }
            _ => None,
        }
    }
}
