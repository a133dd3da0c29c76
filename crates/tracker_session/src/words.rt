// The words of the command line.
ghost use Rattle.std.specs.Prelude.{◌≡◌, ◌≢◌, ◌<◌, ◌≤◌, ◌^◌, ◌↔◌, ◌∷◌, [], ℕ, IfOk, IfSome, IsNone, IsTrue};
ghost use Rattle.std.specs.Fmt.{decimal};
ghost use Rattle.tracker_session.specs.Words.{IsPlain, IsWish, Parsed, ParsedAs, exercise_with, is_name, named_scene, number_in, replay_with, scene_numbers, texts, work_line, workers_in, workers_of};

use std::alloc::{AllocError, Global};

/// A command, by its words.
#[derive(Debug, PartialEq, Eq, Drop)]
pub enum Command {
    /// `replay SETTINGS INPUT OUTPUT PRICES [--workers=N]`: replays a recording.
    Replay {
        /// The name of the settings, a TOML document.
        settings: String,
        /// The name of the input, a recording or data blocks alone.
        input: String,
        /// The name of the output, the datagrams of the editions.
        output: String,
        /// The name of the prices.
        prices: String,
        /// How many workers share the work, from 1 to 16.
        workers: u8,
    },
    /// `scene SEED AIRCRAFT SECONDS LATE OUTPUT`: writes the recording of a scene.
    Scene {
        /// What the scene is drawn from, any number below 2^64.
        seed: u64,
        /// How many aircraft fly, from 1 to 2,000.
        aircraft: u16,
        /// For how many seconds they are seen, from 1 to 3,600.
        seconds: u16,
        /// How many of a hundred plots come late, from 0 to 100.
        late: u8,
        /// The name of the output, the recording.
        output: String,
    },
    /// `exercise SEED AIRCRAFT SECONDS LATE [--workers=N]`: replays a scene, and keeps nothing.
    Exercise {
        /// What the scene is drawn from, any number below 2^64.
        seed: u64,
        /// How many aircraft fly, from 1 to 2,000.
        aircraft: u16,
        /// For how many seconds they are seen, from 1 to 3,600.
        seconds: u16,
        /// How many of a hundred plots come late, from 0 to 100.
        late: u8,
        /// How many workers share the work, from 1 to 16.
        workers: u8,
    },
    /// `check PRICES`: judges the certificates of a price file.
    Check {
        /// The name of the prices.
        prices: String,
    },
}

impl Command {
    /// How many workers share the work of the command: the number that its words give, or 1.
    pub fn workers(&self) -> u8
        ensures { result ≡ workers_of self.now }
    {
        match self {
            Command::Replay { workers, .. } | Command::Exercise { workers, .. } => *workers,
            Command::Scene { .. } | Command::Check { .. } => 1,
        }
    }
}

/// Why words are no command.
#[derive(Clone, Copy, Debug, PartialEq, Eq)]
pub enum WordsError {
    /// The words are those of no command.
    Usage,
    /// Memory is wanting.
    NoMemory,
}

impl From<AllocError> for WordsError {
    ghost use Rattle.tracker_session.specs.declared.words.WordsError.TheVariants.{NoMemory};

    ghost from_gives = { λ _ e. e ≡ NoMemory };

    fn from(_error: AllocError) -> WordsError {
        WordsError::NoMemory
    }
}

/// The command that the words are: `replay` and four names, or `exercise` and four numbers, either of
/// them with or without a last word `--workers=` and a number from 1 to 16; `check` and a name; or
/// `scene`, four numbers and a name. A name isn't empty and doesn't begin with two dashes. A number has
/// decimal digits alone, without a leading zero. Without a word for them there is one worker.
///
/// `Usage` comes exactly for other words.
pub fn parse_words(alloc: Global, words: &[String]) -> Result<Command, WordsError>
    ensures words { Parsed (texts words.now) result }
    ensures workers { IfOk result (λ command. IsWish (workers_of command)) }
{
    match words {
        [command, prices] => parse_check(alloc, command.as_str(), prices.as_str()),
        [command, a, b, c, d] => parse_work(
            alloc,
            command.as_str(),
            a.as_str(),
            b.as_str(),
            c.as_str(),
            d.as_str(),
            Some(1),
        ),
        [command, a, b, c, d, last] => parse_six(
            alloc,
            command.as_str(),
            a.as_str(),
            b.as_str(),
            c.as_str(),
            d.as_str(),
            last.as_str(),
        ),
        _ => Err(WordsError::Usage),
    }
}

// Whether a word is a name.
fn is_name(word: &str) -> bool
    ensures { result ≡ is_name word.now }
{
    !word.is_empty() && !word.as_bytes().starts_with(b"--")
}

// The command of two words.
fn parse_check(alloc: Global, command: &str, prices: &str) -> Result<Command, WordsError>
    ensures words { Parsed (command.now ∷ prices.now ∷ []) result }
    ensures workers { IfOk result (λ command. IsWish (workers_of command)) }
{
    if command != "check" || !is_name(prices) {
        return Err(WordsError::Usage);
    }
    let prices = String::from_str(alloc, prices)?;
    Ok(Command::Check { prices })
}

// The command of six words. The last one is the name of an output, or tells the workers.
fn parse_six(
    alloc: Global,
    command: &str,
    a: &str,
    b: &str,
    c: &str,
    d: &str,
    last: &str,
) -> Result<Command, WordsError>
    ensures words { Parsed (command.now ∷ a.now ∷ b.now ∷ c.now ∷ d.now ∷ last.now ∷ []) result }
    ensures workers { IfOk result (λ command. IsWish (workers_of command)) }
{
    if command == "scene" {
        return parse_scene(alloc, a, b, c, d, last);
    }
    parse_work(alloc, command, a, b, c, d, workers_in(last))
}

// The command of five words that so many workers may share.
fn parse_work(
    alloc: Global,
    command: &str,
    a: &str,
    b: &str,
    c: &str,
    d: &str,
    workers: Option<u8>,
) -> Result<Command, WordsError>
    requires { IfSome workers IsWish }
    ensures words { ParsedAs (work_line command.now a.now b.now c.now d.now workers) result }
    ensures workers { IfOk result (λ command. IsWish (workers_of command)) }
{
    let Some(workers) = workers else {
        return Err(WordsError::Usage);
    };
    if command == "replay" {
        return parse_replay(alloc, a, b, c, d, workers);
    }
    if command == "exercise" {
        return parse_exercise(a, b, c, d, workers);
    }
    Err(WordsError::Usage)
}

// The command of these names.
fn parse_replay(
    alloc: Global,
    settings: &str,
    input: &str,
    output: &str,
    prices: &str,
    workers: u8,
) -> Result<Command, WordsError>
    requires { IsWish workers }
    ensures words { ParsedAs (replay_with settings.now input.now output.now prices.now workers) result }
    ensures workers { IfOk result (λ command. IsWish (workers_of command)) }
{
    if !is_name(settings) || !is_name(input) || !is_name(output) || !is_name(prices) {
        return Err(WordsError::Usage);
    }
    let settings = String::from_str(alloc, settings)?;
    let input = String::from_str(alloc, input)?;
    let output = String::from_str(alloc, output)?;
    let prices = String::from_str(alloc, prices)?;
    Ok(Command::Replay {
        settings,
        input,
        output,
        prices,
        workers,
    })
}

// The command of these numbers.
fn parse_exercise(
    seed: &str,
    aircraft: &str,
    seconds: &str,
    late: &str,
    workers: u8,
) -> Result<Command, WordsError>
    requires { IsWish workers }
    ensures words { ParsedAs (exercise_with (scene_numbers seed.now aircraft.now seconds.now late.now) workers) result }
    ensures workers { IfOk result (λ command. IsWish (workers_of command)) }
{
    let Some((seed, aircraft, seconds, late)) = scene_numbers(seed, aircraft, seconds, late) else {
        return Err(WordsError::Usage);
    };
    Ok(Command::Exercise {
        seed,
        aircraft,
        seconds,
        late,
        workers,
    })
}

// The command of these numbers and the name of an output.
fn parse_scene(
    alloc: Global,
    seed: &str,
    aircraft: &str,
    seconds: &str,
    late: &str,
    output: &str,
) -> Result<Command, WordsError>
    ensures words { ParsedAs (named_scene (scene_numbers seed.now aircraft.now seconds.now late.now) output.now) result }
    ensures workers { IfOk result (λ command. IsWish (workers_of command)) }
{
    if !is_name(output) {
        return Err(WordsError::Usage);
    }
    let Some((seed, aircraft, seconds, late)) = scene_numbers(seed, aircraft, seconds, late) else {
        return Err(WordsError::Usage);
    };
    let output = String::from_str(alloc, output)?;
    Ok(Command::Scene {
        seed,
        aircraft,
        seconds,
        late,
        output,
    })
}

// How many workers a word asks for.
fn workers_in(word: &str) -> Option<u8>
    ensures told { result ≡ workers_in word.now }
    ensures within { IfSome result IsWish }
{
    let number = word.strip_prefix("--workers=")?;
    let workers = number_in(1, 16, number)?;
    Some(workers as u8)
}

// The seed, the aircraft, the seconds and the late plots of a scene, each in its range.
fn scene_numbers(
    seed: &str,
    aircraft: &str,
    seconds: &str,
    late: &str,
) -> Option<(u64, u16, u16, u8)>
    ensures { result ≡ scene_numbers seed.now aircraft.now seconds.now late.now }
{
    let seed = number_in(0, u64::MAX, seed)?;
    let aircraft = number_in(1, 2000, aircraft)?;
    let seconds = number_in(1, 3600, seconds)?;
    let late = number_in(0, 100, late)?;
    Some((seed, aircraft as u16, seconds as u16, late as u8))
}

// Whether a word begins neither with a sign nor with a zero that more octets follow.
fn is_plain(octets: &[u8]) -> bool
    ensures { IsTrue result ↔ IsPlain octets.now }
{
    !matches!(octets, [b'+', ..] | [b'0', _, ..])
}

// The number that a word writes in decimal digits, without a leading zero.
fn read_number(word: &str) -> Option<u64>
    ensures told { IfSome result (λ n. word.now ≡ decimal n) }
    ensures fits { IfSome result (λ n. n < 2 ^ 64) }
    ensures refused { IsNone result → (n : ℕ) → n < 2 ^ 64 → word.now ≢ decimal n }
{
    if is_plain(word.as_bytes()) {
        word.parse::<u64>().ok()
    } else {
        None
    }
}

// .. where it lies in a range.
fn number_in(first: u64, last: u64, word: &str) -> Option<u64>
    ensures number { result ≡ number_in first last word.now }
    ensures least { IfSome result (λ n. first ≤ n) }
    ensures most { IfSome result (λ n. n ≤ last) }
{
    let Some(number) = read_number(word) else {
        return None;
    };
    if first <= number && number <= last {
        return Some(number);
    }
    None
}
