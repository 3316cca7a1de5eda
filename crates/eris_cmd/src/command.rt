ghost use Rattle.std.specs.Prelude.{◌≡◌, ◌≤◌, ℕ, ◌∷◌, [], codes, map, string_bytes, IfSome, None, Some};
ghost use Rattle.eris_cmd.specs.Commands.{IsDrill, IsKnown, IsNumberWord, IsReader};
ghost use Rattle.eris_cmd.specs.Named.{Names, input_limit_of};

use eris_check_run::CHECK_LIMIT;
use eris_run::INPUT_LIMIT;
use eris_words::read_number;
use std::marker::Model;

/// What the words of a command line ask for.
#[derive(Debug, Drop)]
pub enum Command {
    /// A script is run, and the report of the world after it is due.
    Run,
    /// A report is judged: whether its history is serial in its order, else which rule is broken first.
    Check,
    /// A script of version 1 is written in the spelling of version 2.
    Migrate,
    /// The drill of this number is run, and the summary of its day is due. Nothing is read.
    Drill(DrillNumber),
}

/// The number of a drill, 1 to 500.
#[derive(Debug, Drop)]
pub struct DrillNumber {
    number: u32,
}

impl Model for DrillNumber {
    ghost use Rattle.std.specs.Prelude.{◌≤◌, ℕ};

    ghost Value = { ℕ };

    ghost view = { λ d. d.number };

    ghost invariant = { λ d. (1 ≤ d.number) × (d.number ≤ 500) };
}

impl DrillNumber {
    /// The drill of this number. None exactly where it isn't 1 to 500. It takes no memory.
    pub fn new(number: u32) -> Option<DrillNumber>
        ensures some { IfSome result (λ drill. (drill ≡ number) × (1 ≤ number) × (number ≤ 500)) }
        ensures none { result ≡ None → 1 ≤ number → number ≤ 500 → ⊥ }
    {
        if number < 1 || number > 500 {
            return None;
        }
        Some(DrillNumber { number })
    }

    /// Which number it is, 1 to 500. It takes no memory.
    pub fn get(&self) -> u32
        ensures exact { result ≡ self.now }
        ensures some { 1 ≤ self.now }
        ensures few { self.now ≤ 500 }
    {
        self.number
    }
}

impl Command {
    /// What the words ask for. None exactly where they are neither `run`, `check` or `migrate` alone nor
    /// `drill N` with N from 1 to 500, written without a leading zero. It takes no memory.
    pub fn from_words(words: &[String]) -> Option<Command>
        ensures some { IfSome result (Names (map string_bytes words.now)) }
        ensures none { result ≡ None → IsKnown (map string_bytes words.now) → ⊥ }
    {
        match drill_of(words) {
            Some(number) => Some(Command::Drill(number)),
            None => reader_of(words),
        }
    }

    /// How many bytes of an input it reads at most; None where it reads nothing. It takes no memory.
    pub fn input_limit(&self) -> Option<usize>
        ensures { result ≡ input_limit_of self.now }
    {
        match self {
            Command::Run | Command::Migrate => Some(INPUT_LIMIT),
            Command::Check => Some(CHECK_LIMIT),
            Command::Drill(_) => None,
        }
    }
}

// The command that reads its input and that the words name; None where they name none.
fn reader_of(words: &[String]) -> Option<Command>
    ensures some { IfSome result (Names (map string_bytes words.now)) }
    ensures none { result ≡ None → IsReader (map string_bytes words.now) → ⊥ }
{
    match words {
        [word] => command_of(word.as_str()),
        _ => None,
    }
}

// The command that reads its input and has this word alone.
fn command_of(word: &str) -> Option<Command>
    ensures some { IfSome result (Names (word.now ∷ [])) }
    ensures none { result ≡ None → IsReader (word.now ∷ []) → ⊥ }
{
    if word == "run" {
        Some(Command::Run)
    } else if word == "check" {
        Some(Command::Check)
    } else if word == "migrate" {
        Some(Command::Migrate)
    } else {
        None
    }
}

// The drill that the words name; None where they name none.
fn drill_of(words: &[String]) -> Option<DrillNumber>
    ensures some { IfSome result (IsDrill (map string_bytes words.now)) }
    ensures none { result ≡ None → (number : ℕ) → IsDrill (map string_bytes words.now) number → ⊥ }
{
    match words {
        [word, number] if word.as_str() == "drill" => number_of(number.as_bytes()),
        _ => None,
    }
}

// The number, 1 to 500, that the word writes.
fn number_of(word: &[u8]) -> Option<DrillNumber>
    ensures some { IfSome result (IsNumberWord word.now) }
    ensures none { result ≡ None → (number : ℕ) → IsNumberWord word.now number → ⊥ }
{
    match read_number(word, 500) {
        Some(number) => DrillNumber::new(number as u32),
        None => None,
    }
}
