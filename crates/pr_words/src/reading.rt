// Reading the words.
ghost use Rattle.clap.specs.Words.{first_value, found_of, kind_of};
ghost use Rattle.pr_words.specs.Command.{job_from};
ghost use Rattle.pr_words.specs.Words.{Answers, job_of};
ghost use Rattle.clap.specs.declared.error.kind.ErrorKind.TheVariants as kinds;
ghost use Rattle.pr_words.specs.declared.fault.WordsFault.TheVariants as faults;
ghost use Rattle.std.specs.Prelude.{◌≡◌, map, string_bytes};

use crate::WordsFault;
use crate::command::practi;
use crate::given::given_by;
use crate::job::Job;
use crate::mode::mode_of;
use crate::modes::job_by;
use clap::error::ErrorKind;
use clap::{ArgMatches, Error};
use std::alloc::Global;

/// The job that the words ask for; `Usage` exactly where they ask for none. An option is one word `--key=value` or two
/// words, before or after the mode. The time is linear in the words.
pub fn read(alloc: Global, words: &[String]) -> Result<Job, WordsFault>
    ensures { Answers result (job_of (map string_bytes words.now)) }
{
    let command = practi(alloc)?;
    match command.try_get_matches_from(words) {
        Ok(matches) => job(alloc, &matches),
        Err(error) => Err(fault(&error)),
    }
}

// The job that the matches ask for.
fn job(alloc: Global, matches: &ArgMatches<'_>) -> Result<Job, WordsFault>
    ensures { Answers result (job_from (first_value (found_of matches.now))) }
{
    let Some(word) = matches.get_str("mode") else {
        return Err(WordsFault::Usage);
    };
    let Some(mode) = mode_of(word.as_bytes()) else {
        return Err(WordsFault::Usage);
    };
    job_by(alloc, mode, &given_by(matches))
}

// Why there are no matches.
fn fault(error: &Error) -> WordsFault
    ensures no_memory { kind_of error.now ≡ kinds.OutOfMemory → result ≡ faults.NoMemory }
    ensures usage { result ≡ faults.NoMemory → kind_of error.now ≡ kinds.OutOfMemory }
{
    match error.kind() {
        ErrorKind::OutOfMemory => WordsFault::NoMemory,
        _ => WordsFault::Usage,
    }
}
