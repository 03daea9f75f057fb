// What the words ask for.
ghost use Rattle.std.specs.Prelude.{◌≡◌, ◌≢◌, IfOk, MatchResult, map, string_bytes};
ghost use Rattle.clap.specs.Words.{found_of, rows_of, subcommand_rows_of};
ghost use Rattle.commands.specs.Commands.{told_by, IsFit};
ghost use Rattle.command_line.specs.Words.{IsAlone, IsCommand};
ghost use Rattle.command_line.specs.Asks.{IsWordsRefusal};
ghost use Rattle.command_line.specs.WordsSteps.{AsksMet, IsCommandOfWord};
ghost use Rattle.command_line.specs.declared.read.WordsRefusal.TheVariants.{Memory};

use crate::entries::{is_apart, names_of, settings_of};
use crate::table::{fmeda_command, task_of};
use clap::ArgMatches;
use commands::Asked;
use room::{NoRoom, try_get_matches_from};
use std::alloc::Global;

/// Why there is no command.
#[derive(Clone, Copy, PartialEq, Eq, Debug)]
pub enum WordsRefusal {
    /// The words are no command; words that ask for help or for the version are none either.
    Usage,
    Memory(NoRoom),
}

impl From<NoRoom> for WordsRefusal {
    ghost from_gives = { λ no_room e. e ≡ Memory no_room };

    fn from(e: NoRoom) -> Self {
        WordsRefusal::Memory(e)
    }
}

// What a command's word and the words behind it ask for.
fn command_of<'a>(
    alloc: Global,
    word: &str,
    matches: &ArgMatches<'a>,
) -> Result<Asked<'a>, WordsRefusal>
    ensures { IsCommandOfWord word.now (rows_of (found_of matches.now)) result }
{
    let settings = settings_of(alloc, matches)?;
    let task = match task_of(alloc, word, matches) {
        Ok(task) => task,
        Err(refusal) => {
            drop(settings);
            return Err(refusal);
        }
    };
    let names = names_of(matches);
    if is_apart(matches, &names, task.kind()) {
        Ok(Asked {
            names,
            settings,
            task,
        })
    } else {
        drop(settings);
        drop(task);
        Err(WordsRefusal::Usage)
    }
}

// What the subcommand that was met asks for.
fn asked_of<'a>(alloc: Global, matches: &ArgMatches<'a>) -> Result<Asked<'a>, WordsRefusal>
    ensures { AsksMet (subcommand_rows_of matches.now) result }
{
    match matches.subcommand() {
        Some((word, inner)) => command_of(alloc, word, inner),
        None => Err(WordsRefusal::Usage),
    }
}

/// The command that the words are; the first word is the program's name.
pub fn read_words<'a>(alloc: Global, words: &'a [String]) -> Result<Asked<'a>, WordsRefusal>
    ensures reads { MatchResult result (λ a. IsCommand (map string_bytes words.entry.now) (told_by a)) (IsWordsRefusal (map string_bytes words.entry.now)) }
    ensures alone { IfOk result (λ a. IsAlone (map string_bytes words.entry.now) (told_by a)) }
    ensures fit { IfOk result (λ a. IsFit (told_by a)) }
{
    let command = fmeda_command(alloc)?;
    match try_get_matches_from(command, words)? {
        Ok(matches) => asked_of(alloc, &matches),
        Err(_) => Err(WordsRefusal::Usage),
    }
}
