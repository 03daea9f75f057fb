// Words of the text.
ghost use Rattle.std.specs.Prelude.{◌≡◌, ◌≤◌, length};
ghost use Rattle.metric_sums.specs.Words.{role_word as word_of_role};
ghost use Rattle.fmeda_report.specs.Words.{covering_word as word_of_covering};
ghost use Rattle.always.specs.Text.{bit_word as word_of_bit, few_word as word_of_few, standing_word as word_of_standing, whole_word as word_of_whole, window_word as word_of_window};

use always_answers::PartAnswer;
use fm_base::Line;
use fm_shelf::lines::number_word;
use metric_sums::words::role_word;
use rate_table::Part;

// A text as a word.
fn word(text: &[u8]) -> Line
    requires { length text.now ≤ 160 }
    ensures { result ≡ text.now }
{
    let mut word = Line::new();
    word.put(text);
    word
}

/// A bit.
pub(crate) fn bit_word(value: &bool) -> &[u8]
    ensures { result.now ≡ word_of_bit value.now }
{
    if *value { b"1" } else { b"0" }
}

/// How a part stands as a whole.
pub(crate) fn whole_word(answer: PartAnswer) -> Line
    ensures { result ≡ word_of_whole answer }
{
    match answer {
        PartAnswer::NoPath => word(b"yes"),
        PartAnswer::Whole { open: few, .. } => few_word(few),
        PartAnswer::Alone => word(b"no"),
    }
}

// In all nets, or in all but some.
fn few_word(few: u32) -> Line
    ensures { result ≡ word_of_few few }
{
    if few == 0 {
        return word(b"yes");
    }
    let mut word = Line::new();
    word.put(b"but ");
    word.put_dec(u64::from(few));
    word
}

/// The least window of a part.
pub(crate) fn window_word(answer: PartAnswer) -> Line
    ensures { result ≡ word_of_window answer }
{
    match answer {
        PartAnswer::NoPath => word(b"-"),
        PartAnswer::Whole { window, .. } => number_word(u64::from(window)),
        PartAnswer::Alone => word(b"-"),
    }
}

/// The role of a part.
pub(crate) fn role_of(part: &Part) -> &[u8]
    ensures { result.now ≡ word_of_role part.now.role }
{
    role_word(part.role)
}

/// Whether a part is covered by a safety mechanism.
pub(crate) fn covering_word(part: &Part) -> &[u8]
    ensures { result.now ≡ word_of_covering part.now.covered }
{
    if part.covered {
        b"covered"
    } else {
        b"uncovered"
    }
}

/// How a target stands, by whether the least value meets it.
pub(crate) fn standing_word(met: &Option<bool>) -> &[u8]
    ensures { result.now ≡ word_of_standing met.now }
{
    match *met {
        None => b"-",
        Some(true) => b"met",
        Some(false) => b"open",
    }
}
