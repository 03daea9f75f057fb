// Words of metrics and targets.
ghost use Rattle.std.specs.Prelude.{◌≡◌, ◌++◌, codes, decimal};
ghost use Rattle.fmeda_report.specs.Words.{fraction_word as word_of_fraction};
ghost use Rattle.metric_bounds.specs.Steps.{standing_word as word_of_standing};

use crate::Standing;
use fm_base::Line;
use metric_sums::Fraction;

/// How a target stands, or `-` where the metric has no value.
pub fn standing_word(standing: &Option<Standing>) -> &[u8]
    ensures { result.now ≡ word_of_standing standing.now }
{
    match *standing {
        None => b"-",
        Some(Standing::Met) => b"met",
        Some(Standing::Missed) => b"missed",
        Some(Standing::Open) => b"open",
    }
}

// Two numbers with a slash between them.
fn ratio_word(fraction: Fraction) -> Line
    ensures { result ≡ decimal fraction.num ++ codes "/" ++ decimal fraction.den }
{
    let mut word = Line::new();
    word.put_dec(fraction.num);
    word.put(b"/");
    word.put_dec(fraction.den);
    word
}

// What stands where there is no fraction.
fn dash() -> Line
    ensures { result ≡ codes "-" }
{
    let mut word = Line::new();
    word.put(b"-");
    word
}

/// A fraction that isn't reduced, or `-` where there is none.
pub fn fraction_word(fraction: Option<Fraction>) -> Line
    ensures { result ≡ word_of_fraction fraction }
{
    match fraction {
        None => dash(),
        Some(fraction) => ratio_word(fraction),
    }
}
