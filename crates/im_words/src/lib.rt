//! The words of the command line of the program `im`, read with `clap`:
//! `im run [--logs 1..4] [--link auto|manual]`, `im verify`, `im show` and `im gen N`.
#![tactic(auto)]

ghost use Rattle.std.specs.Prelude.{◌≡◌, ◌≢◌, ◌↔◌, ◌⊎◌, ℕ, IfOk, Some, map};
ghost use Rattle.std.specs.String.{string_bytes};
ghost use Rattle.clap.specs.Words.{kind_of, subcommand_of, subcommand_rows_of};
ghost use Rattle.im_words.specs.Command.{IsFaultless, AreWordsRefused, im_command};
ghost use Rattle.im_words.specs.Form.{IsForm, IsGenForm, IsShowForm, IsVerifyForm};
ghost use Rattle.im_words.specs.Meaning.{HasFewLogs, asked_of};

mod command;
pub mod laws;
mod matches;

use clap::error::ErrorKind;
use clap::{ArgMatches, Error};
use command::im_command;
use matches::asked;
use std::alloc::{AllocError, Global};

/// When a run links its transactions into the tree.
#[derive(Clone, Copy, Debug, PartialEq, Eq)]
pub enum Link {
    /// By itself, as they come; so far at the lines of the script alone.
    Auto,
    /// Only where a line of the script asks for it.
    Manual,
}

/// What the words ask for.
#[derive(Clone, Copy, Debug, PartialEq, Eq)]
pub enum Request {
    /// A run, with its number of logs, 1 to 4, and its link.
    Run { logs: u8, link: Link },
    /// The client that checks the lines it is shown.
    Verify,
    /// What that client knows.
    Show,
    /// The script of so many lines, at most 100,000, run in memory and judged.
    Gen { lines: u32 },
}

/// Why the words got no answer.
#[derive(Clone, Copy, Debug, PartialEq, Eq)]
pub enum WordsError {
    /// Memory ran out.
    Memory,
    /// The words are no command line of the program.
    Usage,
}

impl From<AllocError> for WordsError {
    ghost use Rattle.im_words.specs.declared.WordsError.TheVariants.{Memory};

    ghost from_gives = { λ _ e. e ≡ Memory };

    fn from(_: AllocError) -> Self {
        WordsError::Memory
    }
}

// Why `clap` gave no matches.
fn cause(error: &Error) -> WordsError
    ensures memory { (result ≡ WordsError.Memory) ↔ (kind_of error.now ≡ ErrorKind.OutOfMemory) }
    ensures usage { (result ≡ WordsError.Usage) ↔ (kind_of error.now ≢ ErrorKind.OutOfMemory) }
{
    match error.kind() {
        ErrorKind::OutOfMemory => WordsError::Memory,
        _ => WordsError::Usage,
    }
}

// The matches of the words.
fn matched<'a>(alloc: Global, words: &'a [String]) -> Result<ArgMatches<'a>, WordsError>
    ensures refused { result ≡ Err WordsError.Usage → AreWordsRefused (map string_bytes words.entry.now) }
    ensures faultless { IfOk result (λ m. IsFaultless (map string_bytes words.entry.now)) }
    ensures subcommand { IfOk result (λ m. subcommand_rows_of m
        ≡ subcommand_of im_command (map string_bytes words.entry.now)) }
{
    let command = im_command(alloc)?;
    match command.try_get_matches_from(words) {
        Ok(matches) => Ok(matches),
        Err(error) => Err(cause(&error)),
    }
}

/// Reads the words of a command line, of which the first is the program's name. An option that the
/// words lack has its default, 1 and `auto`.
///
/// # Errors
///
/// `Usage` only where `clap` refuses the words. There the error is `Usage`, or `Memory` where memory
/// runs out first.
pub fn read_words(alloc: Global, words: &[String]) -> Result<Request, WordsError>
    ensures refused { result ≡ Err WordsError.Usage → AreWordsRefused (map string_bytes words.now) }
    ensures usage { AreWordsRefused (map string_bytes words.now)
        → (result ≡ Err WordsError.Usage) ⊎ (result ≡ Err WordsError.Memory) }
    ensures faultless { IfOk result (λ asked. IsFaultless (map string_bytes words.now)) }

    // Which answer comes, at all words and at words of the forms.
    ensures asked { IfOk result (λ asked. asked_of (subcommand_of im_command
        (map string_bytes words.now)) ≡ Some asked) }
    ensures taken { (logs : ℕ) (link : Link) → IsForm (map string_bytes words.now) logs link
        → (result ≡ Ok (Request.Run logs link)) ⊎ (result ≡ Err WordsError.Memory) }
    ensures taken_verify { IsVerifyForm (map string_bytes words.now)
        → (result ≡ Ok Request.Verify) ⊎ (result ≡ Err WordsError.Memory) }
    ensures taken_show { IsShowForm (map string_bytes words.now)
        → (result ≡ Ok Request.Show) ⊎ (result ≡ Err WordsError.Memory) }
    ensures taken_gen { (n : ℕ) → IsGenForm (map string_bytes words.now) n
        → (result ≡ Ok (Request.Gen n)) ⊎ (result ≡ Err WordsError.Memory) }
    ensures limits { IfOk result HasFewLogs }
{
    let matches = matched(alloc, words)?;
    Ok(asked(&matches))
}
