//! The command line of the program.
ghost use Rattle.std.specs.Prelude.{◌≡◌, ◌≤◌, [], IfOk, IfErr, IfSome, OnOk, Some, true, false, is_some, option_map, map, codes};
ghost use Rattle.clap.specs.Words.{app_of, fault_of, found_of, first_value, kind_of, rows_of, rule_of, takes, matches_of};
ghost use Rattle.clap.specs.Words.{with_rule};
ghost use Rattle.gr_console.specs.CommandLine.{bare_line, session_line, file_line, search_line, rewind_line, file_rule, flag_rule, option_rule, workers_rule, states_rule};
ghost use Rattle.gr_console.specs.CommandLine.{debugs as session_over, searches as search_of, blames as blame_of};
ghost use Rattle.gr_console.specs.CommandLine.{is_given as is_given_by, number_in, states_in, way_of, the_way, asked_with, asked_of, asked_by, asked_in};
ghost use Rattle.gr_console.specs.CommandLine.{HasFewWorkers};

use crate::settings::{STATE_LIMIT, Settings, USUAL_STATES, WORKER_LIMIT};
use crate::words::{
    ABOUT, AFTER_HELP, BLAME_HELP, CHECK_HELP, EXPLAIN_HELP, FILE_HELP, HELP, JSON_HELP,
    LEAKS_HELP, NOTHING_ASKED, SEARCH_HELP, STATES_HELP, TOO_MUCH_ASKED, USAGE, VERSION,
    WORKERS_HELP,
};
use clap::error::ErrorKind;
use clap::{Arg, ArgAction, ArgMatches, Command, Error, value_parser};
use std::alloc::{AllocError, Global};

/// In which way something is asked, with the file or the code that is named.
#[derive(Clone, Copy)]
enum Way<'a> {
    Session(&'a str),
    Check(&'a str),
    Tell(&'a str),
    Explain(&'a str),
    Search(&'a str),
    Blame(&'a str),
}

fn file_argument<'a>(alloc: Global) -> Arg<'a>
    ensures rule { rule_of result ≡ file_rule }
    ensures own { result.global ≡ false }
{
    Arg::new(alloc, "FILE")
        .action(ArgAction::Set)
        .help(FILE_HELP)
}

fn check_argument<'a>(alloc: Global) -> Arg<'a>
    ensures rule { rule_of result ≡ option_rule (codes "check") }
    ensures own { result.global ≡ false }
{
    Arg::new(alloc, "check")
        .long("check")
        .value_name("FILE")
        .action(ArgAction::Set)
        .help(CHECK_HELP)
}

fn json_argument<'a>(alloc: Global) -> Arg<'a>
    ensures rule { rule_of result ≡ option_rule (codes "json") }
    ensures own { result.global ≡ false }
{
    Arg::new(alloc, "json")
        .long("json")
        .value_name("FILE")
        .action(ArgAction::Set)
        .help(JSON_HELP)
}

fn explain_argument<'a>(alloc: Global) -> Arg<'a>
    ensures rule { rule_of result ≡ option_rule (codes "explain") }
    ensures own { result.global ≡ false }
{
    Arg::new(alloc, "explain")
        .long("explain")
        .value_name("CODE")
        .action(ArgAction::Set)
        .help(EXPLAIN_HELP)
}

fn workers_argument<'a>(alloc: Global) -> Arg<'a>
    ensures rule { rule_of result ≡ workers_rule }
    ensures own { result.global ≡ false }
{
    Arg::new(alloc, "workers")
        .long("workers")
        .value_name("N")
        .action(ArgAction::Set)
        .value_parser(value_parser!(u64).range(0..=WORKER_LIMIT as i64))
        .help(WORKERS_HELP)
}

fn search_argument<'a>(alloc: Global) -> Arg<'a>
    ensures rule { rule_of result ≡ option_rule (codes "search") }
    ensures own { result.global ≡ false }
{
    Arg::new(alloc, "search")
        .long("search")
        .value_name("FILE")
        .action(ArgAction::Set)
        .help(SEARCH_HELP)
}

fn blame_argument<'a>(alloc: Global) -> Arg<'a>
    ensures rule { rule_of result ≡ option_rule (codes "blame") }
    ensures own { result.global ≡ false }
{
    Arg::new(alloc, "blame")
        .long("blame")
        .value_name("FILE")
        .action(ArgAction::Set)
        .help(BLAME_HELP)
}

fn after_argument<'a>(alloc: Global) -> Arg<'a>
    ensures rule { rule_of result ≡ option_rule (codes "after") }
    ensures own { result.global ≡ false }
{
    Arg::new(alloc, "after")
        .long("after")
        .value_name("SCRIPT")
        .action(ArgAction::Set)
        .help(AFTER_HELP)
}

fn states_argument<'a>(alloc: Global) -> Arg<'a>
    ensures rule { rule_of result ≡ states_rule }
    ensures own { result.global ≡ false }
{
    Arg::new(alloc, "states")
        .long("states")
        .value_name("N")
        .action(ArgAction::Set)
        .value_parser(value_parser!(u64).range(1..=STATE_LIMIT as i64))
        .help(STATES_HELP)
}

fn leaks_argument<'a>(alloc: Global) -> Arg<'a>
    ensures rule { rule_of result ≡ flag_rule (codes "leaks") }
    ensures own { result.global ≡ false }
{
    Arg::new(alloc, "leaks")
        .long("leaks")
        .action(ArgAction::SetTrue)
        .help(LEAKS_HELP)
}

/// The command before its arguments.
fn bare_command<'a>(alloc: Global) -> Command<'a>
    ensures { app_of result ≡ bare_line }
{
    Command::new(alloc, "rewind")
        .version(VERSION)
        .about(ABOUT)
        .override_usage(USAGE)
        .after_help(HELP)
}

fn with_argument<'a>(command: Command<'a>, argument: Arg<'a>) -> Result<Command<'a>, AllocError>
    requires { argument.global ≡ false }
    ensures { IfOk result (λ more. app_of more ≡ with_rule (app_of command.entry) (rule_of argument.entry)) }
{
    command.arg(argument)
}

/// The command with the arguments that name the file of a session.
fn session_command<'a>(alloc: Global) -> Result<Command<'a>, AllocError>
    ensures { IfOk result (λ command. app_of command ≡ session_line) }
{
    let bare = bare_command(alloc);
    let with_file = with_argument(bare, file_argument(alloc))?;
    let with_check = with_argument(with_file, check_argument(alloc))?;
    with_argument(with_check, json_argument(alloc))
}

/// The command with the arguments that name a file.
fn file_command<'a>(alloc: Global) -> Result<Command<'a>, AllocError>
    ensures { IfOk result (λ command. app_of command ≡ file_line) }
{
    let of_session = session_command(alloc)?;
    let with_search = with_argument(of_session, search_argument(alloc))?;
    with_argument(with_search, blame_argument(alloc))
}

/// The command with the arguments of a search, too.
fn search_command<'a>(alloc: Global) -> Result<Command<'a>, AllocError>
    ensures { IfOk result (λ command. app_of command ≡ search_line) }
{
    let of_files = file_command(alloc)?;
    let with_after = with_argument(of_files, after_argument(alloc))?;
    let with_states = with_argument(with_after, states_argument(alloc))?;
    with_argument(with_states, leaks_argument(alloc))
}

fn rewind_command<'a>(alloc: Global) -> Result<Command<'a>, AllocError>
    ensures { IfOk result (λ command. app_of command ≡ rewind_line) }
{
    let of_search = search_command(alloc)?;
    let with_explain = with_argument(of_search, explain_argument(alloc))?;
    with_argument(with_explain, workers_argument(alloc))
}

/// The number that a text gives, from the least to the greatest that is asked for.
fn number(text: &str, least: u32, most: u32) -> Option<u32>
    ensures number { result ≡ number_in least most text.now }
    ensures few { IfSome result (λ n. n ≤ most) }
{
    let Ok(number) = text.parse::<u32>() else {
        return None;
    };
    if least <= number && number <= most {
        Some(number)
    } else {
        None
    }
}

/// A session over a file, without workers or with as many as a text gives.
fn debugs<'a>(file: &'a str, workers: Option<&str>) -> Option<Settings<'a>>
    ensures asked { option_map asked_of result ≡ session_over file.entry.now (option_map (λ text. text.now) workers.entry) }
    ensures few { IfSome result HasFewWorkers }
{
    let workers = match workers {
        None => 0,
        Some(text) => number(text, 0, WORKER_LIMIT)?,
    };
    Some(Settings::Debug { file, workers })
}

/// How many states a text asks for; without one the usual number.
fn states(text: Option<&str>) -> Option<u32>
    ensures { result ≡ states_in (option_map (λ text. text.now) text.entry) }
{
    match text {
        None => Some(USUAL_STATES),
        Some(text) => number(text, 1, STATE_LIMIT),
    }
}

/// Whether an option without a value is given, by the value that it has.
fn is_given(text: Option<&str>) -> bool
    ensures { result ≡ is_given_by (option_map (λ text. text.now) text.entry) }
{
    match text {
        None => false,
        Some(text) => text == "true",
    }
}

/// A search of a file, from where a script leaves it, if one is given.
fn searches<'a>(
    file: &'a str,
    after: Option<&'a str>,
    leaks: bool,
    asked: Option<&str>,
) -> Option<Settings<'a>>
    ensures asked { option_map asked_of result ≡ search_of file.entry.now (option_map (λ text. text.now) after.entry) leaks
        (option_map (λ text. text.now) asked.entry) }
    ensures few { IfSome result HasFewWorkers }
{
    let states = states(asked)?;
    Some(Settings::Search {
        file,
        after,
        leaks,
        states,
    })
}

/// The blame of a step of a script.
fn blames<'a>(file: &'a str, after: &'a str, asked: Option<&str>) -> Option<Settings<'a>>
    ensures asked { option_map asked_of result
        ≡ blame_of file.entry.now after.entry.now (option_map (λ text. text.now) asked.entry) }
    ensures few { IfSome result HasFewWorkers }
{
    let states = states(asked)?;
    Some(Settings::Blame {
        file,
        after,
        states,
    })
}

/// What is asked in one of these ways, with the options that go with it.
fn with_options<'a>(
    way: Way<'a>,
    workers: Option<&str>,
    after: Option<&'a str>,
    states: Option<&str>,
    leaks: bool,
) -> Option<Settings<'a>>
    ensures asked { option_map asked_of result ≡ asked_with (way_of way.entry) (option_map (λ text. text.now) workers.entry)
        (option_map (λ text. text.now) after.entry) (option_map (λ text. text.now) states.entry) leaks }
    ensures few { IfSome result HasFewWorkers }
{
    match (way, workers, after, states, leaks) {
        (Way::Session(file), workers, None, None, false) => debugs(file, workers),
        (Way::Check(file), None, None, None, false) => Some(Settings::Check { file }),
        (Way::Tell(file), None, None, None, false) => Some(Settings::Tell { file }),
        (Way::Explain(code), None, None, None, false) => Some(Settings::Explain { code }),
        (Way::Search(file), None, after, states, leaks) => searches(file, after, leaks, states),
        (Way::Blame(file), None, Some(after), states, false) => blames(file, after, states),
        _ => None,
    }
}

/// The one way in which something is asked, if there is just one.
fn only_way<'a>(
    file: Option<&'a str>,
    check: Option<&'a str>,
    json: Option<&'a str>,
    explain: Option<&'a str>,
    search: Option<&'a str>,
    blame: Option<&'a str>,
) -> Option<Way<'a>>
    ensures { option_map way_of result ≡ the_way (option_map (λ text. text.now) file.entry)
        (option_map (λ text. text.now) check.entry) (option_map (λ text. text.now) json.entry)
        (option_map (λ text. text.now) explain.entry) (option_map (λ text. text.now) search.entry)
        (option_map (λ text. text.now) blame.entry) }
{
    match (file, check, json, explain, search, blame) {
        (Some(file), None, None, None, None, None) => Some(Way::Session(file)),
        (None, Some(file), None, None, None, None) => Some(Way::Check(file)),
        (None, None, Some(file), None, None, None) => Some(Way::Tell(file)),
        (None, None, None, Some(code), None, None) => Some(Way::Explain(code)),
        (None, None, None, None, Some(file), None) => Some(Way::Search(file)),
        (None, None, None, None, None, Some(file)) => Some(Way::Blame(file)),
        _ => None,
    }
}

/// What was found on a command line, if that is just one thing.
fn asked<'a>(matches: &ArgMatches<'a>) -> Option<Settings<'a>>
    ensures asked { option_map asked_of result ≡ asked_by (first_value (found_of matches.now)) }
    ensures few { IfSome result HasFewWorkers }
{
    let way = only_way(
        matches.get_str("FILE"),
        matches.get_str("check"),
        matches.get_str("json"),
        matches.get_str("explain"),
        matches.get_str("search"),
        matches.get_str("blame"),
    )?;
    with_options(
        way,
        matches.get_str("workers"),
        matches.get_str("after"),
        matches.get_str("states"),
        is_given(matches.get_str("leaks")),
    )
}

fn matches<'a>(alloc: Global, words: &'a [&'a str]) -> Result<ArgMatches<'a>, Error>
    ensures ok { IfOk result (λ found.
        rows_of (found_of found) ≡ matches_of rewind_line (map (λ word. word.now) words.entry.now)) }
    ensures taken { OnOk result (fault_of rewind_line (map (λ word. word.now) words.entry.now) ≡ []) }
    ensures err { IfErr result (λ error.
        takes rewind_line (map (λ word. word.now) words.entry.now) ≡ true → kind_of error ≡ ErrorKind.OutOfMemory) }
{
    let command = rewind_command(alloc)?;
    command.try_get_matches_from(words)
}

/// The message where not just one thing is asked.
fn unclear(alloc: Global, nothing: bool) -> Error {
    let (kind, message) = if nothing {
        (ErrorKind::MissingRequiredArgument, NOTHING_ASKED)
    } else {
        (ErrorKind::ArgumentConflict, TOO_MUCH_ASKED)
    };
    match told(alloc, kind, message) {
        Ok(error) => error,
        Err(error) => Error::from(error),
    }
}

fn told(alloc: Global, kind: ErrorKind, message: &str) -> Result<Error, AllocError> {
    let mut command = rewind_command(alloc)?;
    command.error(kind, message)
}

/// What a command line asks for: `rewind FILE`, `rewind FILE --workers N`, `rewind --check FILE`, `rewind --json FILE`,
/// `rewind --explain CODE`, `rewind --search FILE` or `rewind --blame FILE --after SCRIPT`. Its first word is the program's own name.
///
/// An error is `clap`'s, with its words for the user. The command line is of none of these forms, asks for help or the version,
/// or there is no memory for it.
pub fn settings<'a>(alloc: Global, words: &'a [&'a str]) -> Result<Settings<'a>, Error>
    ensures asked { IfOk result (λ settings.
        asked_in (map (λ word. word.now) words.entry.now) ≡ Some (asked_of settings)) }
    ensures few { IfOk result HasFewWorkers }
    ensures taken { OnOk result (fault_of rewind_line (map (λ word. word.now) words.entry.now) ≡ []) }
    ensures err { IfErr result (λ error.
        takes rewind_line (map (λ word. word.now) words.entry.now) ≡ true →
        is_some (asked_in (map (λ word. word.now) words.entry.now)) ≡ true → kind_of error ≡ ErrorKind.OutOfMemory) }
{
    let found = matches(alloc, words)?;
    match asked(&found) {
        Some(settings) => Ok(settings),
        None => {
            let nothing = found.get_str("FILE").is_none()
                && found.get_str("check").is_none()
                && found.get_str("explain").is_none()
                && found.get_str("search").is_none()
                && found.get_str("blame").is_none();
            Err(unclear(alloc, nothing))
        }
    }
}
