//! The words of a command line, read by `clap`.

ghost use Rattle.std.specs.Prelude.{◌≡◌, ◌⊎◌, ◌≤◌, map, string_bytes, Err, IfOk, IfSome, MatchOption, None};
ghost use Rattle.clap.specs.Words.{app_of, found_of, rows_of};
ghost use Rattle.nm_words.specs.Asked.{AreInUse, AreWords, HasUnknownMode, HasValues, HasWrongSchedule, HasWrongSubject, IsInRange, IsRefused, IsRequest, Requested, asked_of, requested};
ghost use Rattle.nm_words.specs.Command.{nescmote};
ghost use Rattle.nm_words.specs.declared.asked.WordsFault.TheVariants.{Usage};

use crate::asked::{Asked, Request, WordsFault};
use crate::mode::Mode;
use crate::texts::VERSION;
use clap::error::ErrorKind;
use clap::{Arg, ArgAction, ArgMatches, Command, value_parser};
use std::alloc::{AllocError, Global};

/// The most slots that the words may ask for.
const MAX_BUDGET: i64 = 1_000_000;

/// The slots of a run where the words name none.
const DEFAULT_BUDGET: &str = "10000";

// `nescmote MODE APP [SCHEDULE] [--budget N]`; the words do not begin with the program's name. What the parser itself
// writes is not printed: `HELP` and `VERSION` stand for it.
fn command<'a>(alloc: Global) -> Result<Command<'a>, AllocError>
    ensures { IfOk result (λ c. app_of c ≡ nescmote) }
{
    let mode = Arg::new(alloc, "MODE")
        .action(ArgAction::Set)
        .required(true);
    let app = Arg::new(alloc, "APP").action(ArgAction::Set).required(true);
    let schedule = Arg::new(alloc, "SCHEDULE").action(ArgAction::Set);
    let budget = Arg::new(alloc, "budget")
        .action(ArgAction::Set)
        .long("budget")
        .value_parser(value_parser!(u32).range(..=MAX_BUDGET))
        .default_value(DEFAULT_BUDGET);
    Command::new(alloc, "nescmote")
        .no_binary_name(true)
        .version(VERSION)
        .arg(mode)?
        .arg(app)?
        .arg(schedule)?
        .arg(budget)
}

/// What the words behind the program's name ask for. `Usage` comes exactly where they are not in use.
pub fn asked_by<'a>(alloc: Global, words: &'a [String]) -> Result<Asked<'a>, WordsFault>
    ensures asked { IfOk result (λ a. AreWords (map string_bytes words.now) (asked_of a)) }
    ensures range { IfOk result (λ a. IsInRange (asked_of a)) }
    ensures usage { result ≡ Err Usage → AreInUse (map string_bytes words.now) → ⊥ }
    ensures refused { result ≡ Err Usage → IsRefused (map string_bytes words.now) }
{
    let command = command(alloc)?;
    match command.try_get_matches_from(words) {
        Ok(matches) => match request_of(&matches) {
            Some(request) => Ok(Asked::Request(request)),
            None => Err(WordsFault::Usage),
        },
        Err(error) => match error.kind() {
            ErrorKind::DisplayHelp => Ok(Asked::Help),
            ErrorKind::DisplayVersion => Ok(Asked::Version),
            ErrorKind::OutOfMemory => Err(WordsFault::NoMemory),
            _ => Err(WordsFault::Usage),
        },
    }
}

// What the matches of a command line ask for; None where the mode is unknown, a schedule is missing or one too many, or
// the mode does not take its subject.
fn request_of<'a>(matches: &ArgMatches<'a>) -> Option<Request<'a>>
    ensures asked { MatchOption result ((r : Requested) → IsRequest (rows_of (found_of matches.now)) r → ⊥)
        (λ r. IsRequest (rows_of (found_of matches.now)) (requested r)) }
    ensures range { HasValues (found_of matches.now) → IfSome result (λ r. r.budget ≤ 1000000) }
    ensures refused { result ≡ None → HasValues (found_of matches.now) →
        HasUnknownMode (rows_of (found_of matches.now)) ⊎ (HasWrongSchedule (rows_of (found_of matches.now))
        ⊎ HasWrongSubject (rows_of (found_of matches.now))) }
{
    let mode = Mode::of_word(matches.get_str("MODE")?)?;
    let subject = matches.get_str("APP")?;
    let schedule = matches.get_str("SCHEDULE");
    if schedule.is_some() != mode.takes_schedule() {
        return None;
    }
    if !mode.takes_subject(subject) {
        return None;
    }
    let budget = matches.get_one::<u32>("budget")?;
    Some(Request {
        mode,
        subject,
        schedule,
        budget,
    })
}
