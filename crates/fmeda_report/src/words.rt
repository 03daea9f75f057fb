// The words of the report.
ghost use Rattle.std.specs.Prelude.{◌≡◌, ◌++◌, codes, decimal};
ghost use Rattle.fmeda_report.specs.Words.{covering_word as word_of_covering, fraction_word as word_of_fraction, target_word as word_of_target};

use fm_base::Line;
use metric_sums::Fraction;

// Whether a part is covered by a safety mechanism.
pub(crate) fn covering_word(covered: bool) -> &'static [u8]
    ensures { result.now ≡ word_of_covering covered }
{
    if covered { b"covered" } else { b"uncovered" }
}

// Whether a target is met, where there is a fraction.
pub(crate) fn target_word(met: Option<bool>) -> &'static [u8]
    ensures { result.now ≡ word_of_target met }
{
    match met {
        None => b"-",
        Some(true) => b"met",
        Some(false) => b"missed",
    }
}

// Two numbers with a slash between them.
fn ratio_word(fraction: Fraction) -> Line
    ensures { result ≡ decimal fraction.num ++ codes "/" ++ decimal fraction.den }
{
    let mut word = Line::new();
    word.put_dec(fraction.num);
    word.put(b"/");
    word.put_dec(fraction.den);
    word
}

// A fraction that isn't reduced, where there is one.
pub(crate) fn fraction_word(fraction: Option<Fraction>) -> Line
    ensures { result ≡ word_of_fraction fraction }
{
    match fraction {
        None => dash(),
        Some(fraction) => ratio_word(fraction),
    }
}

// What stands where there is no fraction.
fn dash() -> Line
    ensures { result ≡ codes "-" }
{
    let mut word = Line::new();
    word.put(b"-");
    word
}
