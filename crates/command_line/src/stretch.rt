// A stretch of cycles: FIRST-LAST, or FIRST-LAST/STEP.
ghost use Rattle.std.specs.Prelude.{◌≤◌, ◌==◌, ◌≡◌, MatchOption, position};
ghost use Rattle.fm_base.specs.Once.{Lacks};
ghost use Rattle.command_line.specs.Cycles.{IsCut, IsRangeWith, IsStretchOf};
ghost use Rattle.command_line.specs.WordsSteps.{Finds};

use crate::cycles::LAST_CYCLE;
use fault_list::Stretch;
use fm_base::field::plain_number;

// The place of the first such byte.
fn place_of(text: &[u8], sign: u8) -> Option<usize>
    ensures { result ≡ position (λ b. b == sign) text.now }
{
    text.iter().position(|b| *b == sign)
}

// What stands before the first such byte and behind it.
fn cut(text: &[u8], sign: u8) -> Option<(&[u8], &[u8])>
    ensures { MatchOption result (Lacks text.now sign) (λ parts. IsCut sign text.now parts.0.now parts.1.now) }
{
    let place = place_of(text, sign)?;
    Some((&text[..place], &text[place + 1..]))
}

// The stretch of FIRST-LAST with this step.
fn range_of(text: &[u8], step: u32) -> Option<Stretch>
    requires { step ≤ 65535 }
    ensures { Finds (IsRangeWith text.now step) result }
{
    let (first, last) = cut(text, b'-')?;
    let first = plain_number(first, LAST_CYCLE)?;
    let last = plain_number(last, LAST_CYCLE)?;
    if first <= last && step >= 1 {
        Some(Stretch { first, last, step })
    } else {
        None
    }
}

/// The stretch that a text gives: numbers up to 65,535 without leading zeros, the first not above the last, and a step of at least 1, which
/// is 1 where it isn't given.
pub(crate) fn stretch_of(text: &[u8]) -> Option<Stretch>
    ensures { Finds (IsStretchOf text.now) result }
{
    match cut(text, b'/') {
        Some((range, step)) => range_of(range, plain_number(step, LAST_CYCLE)?),
        None => range_of(text, 1),
    }
}
