ghost use Rattle.std.specs.Prelude.{◌≡◌, ◌⊎◌, true, false, IfOk, IfErr};
ghost use Rattle.std.specs.Option.{option_map};
ghost use Rattle.clap.specs.Words.{app_of, first_value, found_of, rows_of, is_simple_and_free};
ghost use Rattle.clap.specs.Walk.{Row, first_of};
ghost use Rattle.wwt_words.specs.Declarations.{is_read, rows_read};
ghost use Rattle.wwt_words.specs.Words.{texts_of};

use crate::command::WordFault;
use clap::error::ErrorKind;
use clap::{ArgMatches, Command};

/// What `clap` finds in the words by the command's declaration.
#[tactic(auto, unfolding(crate::specs::Declarations::is_read, crate::specs::Declarations::rows_read))]
pub fn read_by<'a>(command: Command<'a>, words: &'a [String]) -> Result<ArgMatches<'a>, WordFault>
    requires { is_simple_and_free (app_of command) ≡ true }
    ensures read { IfOk result (λ matches. is_read (app_of command.entry) (texts_of words.entry.now) ≡ true) }
    ensures rows { IfOk result (λ matches. rows_of (found_of matches) ≡ rows_read (app_of command.entry) (texts_of words.entry.now)) }
    ensures refused { IfErr result (λ fault. (fault ≡ WordFault.NoMemory) ⊎ ((fault ≡ WordFault.Usage) × (is_read (app_of command.entry) (texts_of words.entry.now) ≡ false))) }
{
    match command.try_get_matches_from(words) {
        Ok(matches) => Ok(matches),
        Err(error) => match error.kind() {
            ErrorKind::OutOfMemory => Err(WordFault::NoMemory),
            _ => Err(WordFault::Usage),
        },
    }
}

/// The text of an option or an operand.
#[tactic(auto, using(crate::proofs::Declared::text_of_row))]
pub fn text<'a>(matches: &ArgMatches<'a>, name: &str) -> Option<&'a str>
    ensures { option_map (λ text. text.now) result ≡ first_of name.now (rows_of (found_of matches.now)) }
{
    matches.get_str(name)
}
