//! The words of a command line, read.

ghost use Rattle.std.specs.Prelude.{◌≡◌, ◌↔◌, ◌+◌, ◌^◌, ◌≤◌, ◌++◌, ◌∷◌, ℕ, List, String, codes, length, map, decimal, option_map, string_bytes, All, IsTrue, IfOk, MatchOption, Some};
ghost use Rattle.std.specs.declared.alloc.Global.{Global};
ghost use Rattle.clap.specs.Words.{Row, first_of, subcommand_rows_of};
ghost use Rattle.node_commands.specs.Words.{AreFrames, AreLemmas, Command, Default, GivesDrill, GivesLimits, GivesMint, GivesPath, GivesRun, GivesServe, HasNumber, HasRoute, IsCount, IsMeaning, IsNumber, IsRaised, IsValue, Mean, Task, drill_words, mint_words, named, path_words, run_words, serve_words};
ghost use Rattle.node_commands.specs.Routes.{GoesOn, IsRoute, numbers_in, pieces, pieces_behind};
ghost use Rattle.node_commands.specs.Table.{IsOfTable, IsOption, IsOptionOf, IsReadAs, IsReadBy, IsReadOf, all_options, texts_of};

use crate::words::table::matches_of;
use crate::words::wanted::{Drill, LANE_CONNECTIONS, MAX_FRAMES, Mint, Path, Route, Wanted};
use clap::ArgMatches;
use clap::error::ErrorKind;
use frame_link::Limits;
use itoa::Buffer;
use lemma_memo::MAX_LEMMAS;
use std::alloc::{AllocError, Global};
use taos_drill::{MAX_LANES, MAX_REQUESTS};

// The options of all commands.
const OPTIONS: [&str; 13] = [
    "connections",
    "frames",
    "issuer",
    "serial",
    "from",
    "until",
    "quoted",
    "left",
    "right",
    "node",
    "route",
    "lemmas",
    "pull",
];

/// Words mean one task.
pub fn one_meaning()
    ensures { (words : List (String Global)) (a b : Task) → Mean words a → Mean words b → a ≡ b }
{}

fn is_value(text: &[u8]) -> bool
    ensures { IsTrue result ↔ IsValue text.now }
{
    match text {
        [first, ..] => *first != b'-',
        [] => false,
    }
}

// Whether a word is the option of this name, in one of its ways.
fn is_option(word: &[u8], name: &[u8]) -> bool
    ensures { IsTrue result ↔ IsOption word.now name.now }
{
    let Some(text) = word.strip_prefix(b"--".as_slice()) else {
        return false;
    };
    match text.strip_prefix(name) {
        Some([first, value @ ..]) => *first == b'=' && is_value(value),
        Some([]) => true,
        None => false,
    }
}

// Whether a word is one of these options.
fn is_among(word: &[u8], names: &[&str]) -> bool
    ensures { IsTrue result ↔ IsOptionOf (map (λ s. s.now) names.now) word.now }
{
    for name in names {
        if is_option(word, name.as_bytes()) {
            return true;
        }
    }
    false
}

fn is_known(word: &[u8]) -> bool
    ensures { IsTrue result ↔ IsOptionOf all_options word.now }
{
    is_among(word, &OPTIONS)
}

// Whether a word may be a value, or is an option of the table.
fn is_of_table(word: &[u8]) -> bool
    ensures { IsTrue result ↔ IsOfTable word.now }
{
    if is_value(word) {
        return true;
    }
    is_known(word)
}

fn are_of_table(words: &[String]) -> bool
    ensures { IsTrue result ↔ All (λ word. IsOfTable (string_bytes word)) words.now }
{
    for word in words {
        if !is_of_table(word.as_bytes()) {
            return false;
        }
    }
    true
}

fn is_written(number: u64, text: &str) -> bool
    ensures { IsTrue result ↔ text.now ≡ decimal number }
{
    let mut digits = Buffer::new();
    digits.format(number) == text
}

// The number that a text is, where it is written as numbers are.
fn number_of(text: &str) -> Option<u64>
    ensures { MatchOption result ((n : ℕ) → IsNumber (2 ^ 64) text.now n → ⊥)
        (IsNumber (2 ^ 64) text.now) }
{
    let Ok(number) = text.parse::<u64>() else {
        return None;
    };
    if !is_written(number, text) {
        return None;
    }
    Some(number)
}

// The same, where it is not 0.
fn count_of(text: &str) -> Option<u64>
    ensures { MatchOption result ((n : ℕ) → IsCount text.now n → ⊥) (IsCount text.now) }
{
    let Some(number) = number_of(text) else {
        return None;
    };
    if number == 0 {
        return None;
    }
    Some(number)
}

// A count that need not be given, and is another without.
fn count_or(text: Option<&str>, other: u64) -> Option<u64>
    ensures { IsReadOf (Default IsCount other (option_map (λ s. s.now) text.entry)) result }
{
    match text {
        Some(text) => count_of(text),
        None => Some(other),
    }
}

// A number that has to be there.
fn needed_number(text: Option<&str>) -> Option<u64>
    ensures { IsReadOf (HasNumber (2 ^ 64) (option_map (λ s. s.now) text.entry)) result }
{
    match text {
        Some(text) => number_of(text),
        None => None,
    }
}

// The same of 32 bits.
fn needed_u32(text: Option<&str>) -> Option<u32>
    ensures { IsReadOf (HasNumber (2 ^ 32) (option_map (λ s. s.now) text.entry)) result }
{
    let number = needed_number(text)?;
    match u32::try_from(number) {
        Ok(number) => Some(number),
        Err(_) => None,
    }
}

// A number up to a largest one, by its text.
fn number_up_to(text: Option<&str>, most: u32) -> Option<u32>
    ensures { IsReadOf (HasNumber (most + 1) (option_map (λ s. s.now) text.entry)) result }
{
    let number = needed_u32(text)?;
    if most < number {
        return None;
    }
    Some(number)
}

// What stands before the first comma, and what behind it, where there is one.
fn cut(text: &str) -> (&str, Option<&str>)
    ensures { pieces text.now
        ≡ result.0.now ∷ pieces_behind (option_map (λ s. s.now) result.1) }
{
    match text.split_once(',') {
        Some((first, later)) => (first, Some(later)),
        None => (text, None),
    }
}

// A route with the numbers behind it that a text joins, where it may have as many.
fn with_later(route: Route, later: Option<&str>) -> Option<Route>
    ensures { IsReadBy numbers_in
        (GoesOn (numbers_in route) (option_map (λ s. s.now) later.entry)) result }
{
    let Some(text) = later else {
        return Some(route);
    };
    let (first, behind) = cut(text);
    let number = needed_u32(Some(first))?;
    let more = route.and(number)?;
    with_later(more, behind)
}

// The route whose numbers a text joins by commas.
fn route_of(text: &str) -> Option<Route>
    ensures { IsReadBy numbers_in (IsRoute text.now) result }
{
    let (first, later) = cut(text);
    let number = needed_u32(Some(first))?;
    with_later(Route::of(number), later)
}

// A route that has to be there.
fn needed_route(text: Option<&str>) -> Option<Route>
    ensures { IsReadBy numbers_in (HasRoute (option_map (λ s. s.now) text.entry)) result }
{
    match text {
        Some(text) => route_of(text),
        None => None,
    }
}

// The text of an option, where that is given.
#[tactic(auto, using(crate::proofs::Found::text_found))]
fn text_of<'a>(options: &ArgMatches<'a>, name: &str) -> Option<&'a str>
    ensures { option_map (λ s. s.now) result ≡ texts_of options.now name.now }
{
    options.get_str(name)
}

// The most frames.
fn frames_of<'a>(options: &ArgMatches<'a>) -> Option<u64>
    ensures { IsReadOf (AreFrames (texts_of options.now (codes "frames"))) result }
{
    count_or(text_of(options, "frames"), MAX_FRAMES)
}

// A number up to a largest one that need not be given, and is another without.
fn number_or(text: Option<&str>, most: u32, other: u32) -> Option<u32>
    ensures { IsReadOf (Default (IsNumber (most + 1)) other
        (option_map (λ s. s.now) text.entry)) result }
{
    match text {
        Some(text) => number_up_to(Some(text), most),
        None => Some(other),
    }
}

// How many lemmas.
fn lemmas_of<'a>(options: &ArgMatches<'a>) -> Option<u32>
    ensures { IsReadOf (AreLemmas (texts_of options.now (codes "lemmas"))) result }
{
    number_or(text_of(options, "lemmas"), MAX_LEMMAS as u32, 0)
}

// Whether certificates are fetched.
fn pulls_of<'a>(options: &ArgMatches<'a>) -> bool
    ensures { IsRaised (texts_of options.now (codes "pull")) result }
{
    text_of(options, "pull").is_some()
}

// What lanes are limited to.
fn limits_of<'a>(options: &ArgMatches<'a>) -> Option<Limits>
    ensures { IsReadOf (GivesLimits (texts_of options.now)) result }
{
    let connections = count_or(text_of(options, "connections"), LANE_CONNECTIONS)?;
    let frames = frames_of(options)?;
    Some(Limits {
        connections,
        frames,
    })
}

fn run_of<'a>(options: &ArgMatches<'a>) -> Option<(u64, u32, bool)>
    ensures { IsReadBy (λ r. run_words r.0 r.1 r.2) (GivesRun (texts_of options.now)) result }
{
    let frames = frames_of(options)?;
    let lemmas = lemmas_of(options)?;
    Some((frames, lemmas, pulls_of(options)))
}

fn serve_of<'a>(options: &ArgMatches<'a>) -> Option<(Limits, u32, bool)>
    ensures { IsReadBy (λ s. serve_words s.0 s.1 s.2) (GivesServe (texts_of options.now)) result }
{
    let limits = limits_of(options)?;
    let lemmas = lemmas_of(options)?;
    Some((limits, lemmas, pulls_of(options)))
}

fn mint_of<'a>(options: &ArgMatches<'a>) -> Option<Mint<'a>>
    ensures { IsReadBy mint_words (GivesMint (texts_of options.now)) result }
{
    let issuer = needed_u32(text_of(options, "issuer"))?;
    let serial = needed_number(text_of(options, "serial"))?;
    let from = text_of(options, "from");
    let until = text_of(options, "until")?;
    let quoted = text_of(options, "quoted");
    let left = text_of(options, "left")?;
    let right = text_of(options, "right")?;
    Some(Mint {
        issuer,
        serial,
        from,
        until,
        quoted,
        left,
        right,
    })
}

fn drill_of<'a>(words: &ArgMatches<'a>) -> Option<Drill>
    ensures { IsReadBy drill_words (GivesDrill (texts_of words.now)) result }
{
    let seed = needed_number(text_of(words, "seed"))?;
    let requests = number_up_to(text_of(words, "requests"), MAX_REQUESTS)?;
    let lanes = number_up_to(text_of(words, "lanes"), MAX_LANES)?;
    if lanes == 0 {
        return None;
    }
    Some(Drill {
        seed,
        requests,
        lanes,
    })
}

fn path_of<'a>(options: &ArgMatches<'a>) -> Option<Path>
    ensures { IsReadBy path_words (GivesPath (texts_of options.now)) result }
{
    let node = needed_u32(text_of(options, "node"))?;
    let route = needed_route(text_of(options, "route"))?;
    Some(Path { node, route })
}

// What the command of this name is asked for.
fn asked_of<'a>(name: &str, options: &ArgMatches<'a>) -> Option<Wanted<'a>>
    ensures { (c : Command) → name.now ≡ named c
        → IsReadAs c (texts_of options.now) result }
{
    match name {
        "run" => {
            let (frames, lemmas, pulls) = run_of(options)?;
            Some(Wanted::Run {
                frames,
                lemmas,
                pulls,
            })
        }
        "check" => Some(Wanted::Check),
        "relay" => Some(Wanted::Relay {
            frames: frames_of(options)?,
        }),
        "mint" => Some(Wanted::Mint(mint_of(options)?)),
        "serve" => {
            let (limits, lemmas, pulls) = serve_of(options)?;
            Some(Wanted::Serve {
                limits,
                lemmas,
                pulls,
            })
        }
        "relay-serve" => Some(Wanted::RelayServe(limits_of(options)?)),
        "audit" => Some(Wanted::Audit {
            frames: frames_of(options)?,
        }),
        "drill" => Some(Wanted::Drill(drill_of(options)?)),
        "path" => Some(Wanted::Path(path_of(options)?)),
        "wallet" => Some(Wanted::Wallet {
            frames: frames_of(options)?,
        }),
        "audit-bytes" => Some(Wanted::AuditBytes {
            frames: frames_of(options)?,
        }),
        "replay" => Some(Wanted::Replay),
        _ => None,
    }
}

// What is asked for by what `clap` found.
fn found_in<'a>(matches: &ArgMatches<'a>) -> Option<Wanted<'a>>
    ensures { (c : Command) (rows : List Row)
        → subcommand_rows_of matches.now ≡ Some (named c, rows)
        → IsReadAs c (λ name. first_of name rows) result }
{
    let (name, options) = matches.subcommand()?;
    asked_of(name, options)
}

/// What words ask for, and `None` where they are no command line.
pub fn wanted_of<'a>(alloc: Global, words: &'a [String]) -> Result<Option<Wanted<'a>>, AllocError>
    ensures { IfOk result (IsMeaning words.now) }
{
    if !are_of_table(words) {
        return Ok(None);
    }
    match matches_of(alloc, words) {
        Ok(matches) => Ok(found_in(&matches)),
        Err(error) => match error.kind() {
            ErrorKind::OutOfMemory => Err(AllocError),
            _ => Ok(None),
        },
    }
}
