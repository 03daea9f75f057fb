// Lines of words, as they go out.
ghost use Rattle.std.specs.Prelude.{◌≡◌, decimal, map};
ghost use Rattle.std.specs.List.{flat_map};
ghost use Rattle.fm_base.specs.Text.{line};
ghost use Rattle.fm_shelf.specs.Spaces.{with_space};
ghost use Rattle.fm_shelf.specs.Sink.{Sends};

use crate::shelf::{Failed, Sink};
use crate::whole::{write_all, write_pieces};
use fm_base::Line;

/// A number in decimal digits, without leading zeros.
pub fn number_word(n: u64) -> Line
    ensures { result ≡ decimal n }
{
    let mut word = Line::new();
    word.put_dec(n);
    word
}

// Writes words with a space behind each.
fn write_words<O: Sink>(out: &mut O, words: &[&[u8]]) -> Result<(), Failed>
    ensures { Sends (O.seen out.old) (O.seen out.new)
        (flat_map with_space words.now) result }
{
    for word in words {
        write_pieces(out, &[word, b" "])?;
    }
    Ok(())
}

/// Writes a line: words with one space between each two, and a line feed.
pub fn write_line<O: Sink>(out: &mut O, words: &[&[u8]]) -> Result<(), Failed>
    ensures { Sends (O.seen out.old) (O.seen out.new)
        (line (map (λ word. word.now) words.now)) result }
{
    let Some((last, words)) = words.split_last() else {
        return write_all(out, b"\n");
    };
    write_words(out, words)?;
    write_pieces(out, &[last, b"\n"])
}
