// Lines of words, at the end of a growing text.
ghost use Rattle.std.specs.Prelude.{◌≡◌, ◌++◌, map, OnOk};
ghost use Rattle.std.specs.List.{flat_map};
ghost use Rattle.fm_base.specs.Text.{line};
ghost use Rattle.sample_gen.specs.Spaces.{after_space};

use room::{NoRoom, extend, push};

// Adds words, each behind a space.
fn put_others(text: &mut Vec<u8>, words: &[&[u8]]) -> Result<(), NoRoom>
    ensures { OnOk result (text.new.items ≡ text.old.items ++ flat_map after_space words.now) }
{
    for word in words {
        push(text, b' ')?;
        extend(text, word)?;
    }
    Ok(())
}

/// Adds a line: words with one space between each two, and a line feed.
pub fn put_line(text: &mut Vec<u8>, words: &[&[u8]]) -> Result<(), NoRoom>
    ensures { OnOk result (text.new.items ≡ text.old.items ++ line (map (λ word. word.now) words.now)) }
{
    if let Some((first, others)) = words.split_first() {
        extend(text, first)?;
        put_others(text, others)?;
    }
    push(text, b'\n')?;
    Ok(())
}
