// A line, or why it is faulty.
ghost use Rattle.std.specs.Prelude.{◌≡◌, ℕ, None, Some, MatchResult};
ghost use Rattle.std.specs.List.{before_first};
ghost use Rattle.blif_text.specs.Lines.{is_hash};
ghost use Rattle.bench_reader.specs.LineFault.{said};
ghost use Rattle.bench_reader.specs.Meant.{meant};
ghost use Rattle.bench_reader.specs.Steps.{kind_of};

use crate::BenchKind;
use crate::says::Says;
use crate::statement::text_says;
use crate::token::is_wide_text;
use blif_text::places::hash_place;

/// The text of a line without its comment.
fn bare(text: &[u8]) -> &[u8]
    ensures { result.now ≡ before_first is_hash text.now }
{
    &text[..hash_place(text)]
}

/// What a line says, or its kind of fault.
pub fn line_says<'a>(text: &'a [u8]) -> Result<Says<'a>, BenchKind>
    ensures { MatchResult result (λ s. (number : ℕ) → (kind_of (said (number, text.now)) ≡ None) × (meant s ≡ (said (number, text.now)).says)) (λ kind. (number : ℕ) → kind_of (said (number, text.now)) ≡ Some kind) }
{
    let text = bare(text);
    let says = text_says(text);
    if let Says::Wrong(why) = says {
        return Err(why.kind());
    }
    if is_wide_text(text) {
        return Err(BenchKind::TooWide);
    }
    Ok(says)
}
