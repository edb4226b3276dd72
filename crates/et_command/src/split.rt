//! Options and operands.
ghost use Rattle.std.specs.Prelude.{◌≡◌, ◌∷◌, ◌<◌, map, string_bytes, option_map, position, length, IfOk, IfSome};
ghost use Rattle.et_command.specs.Words.{split, is_equals, cut_at};
ghost use Rattle.et_command.specs.Parts.{IsOption, split_of, IsAsStepBegins};

use et_base::NoMemory;
use std::alloc::Global;
use std::marker::Model;

/// An option: its name, without the two hyphens, and its value. A contract sees the two as texts.
#[derive(Drop)]
pub struct Given<'a> {
    name: &'a [u8],
    value: &'a [u8],
}

impl<'a> Model for Given<'a> {
    ghost use Rattle.et_command.specs.Words as words;

    ghost Value = { words.Given };

    ghost view = { λ g. record { name = g.name.now; value = g.value.now } };
}

impl<'a> Given<'a> {
    /// The option of this name with this value.
    fn new(name: &'a [u8], value: &'a [u8]) -> Given<'a>
        ensures { result ≡ record { name = name.now; value = value.now } }
    {
        Given { name, value }
    }

    /// The name.
    pub fn name(&self) -> &'a [u8]
        ensures { result.now ≡ self.now.name }
    {
        self.name
    }

    /// The value.
    pub fn value(&self) -> &'a [u8]
        ensures { result.now ≡ self.now.value }
    {
        self.value
    }
}

/// The words behind a command's name.
#[derive(Drop)]
pub struct Split<'a> {
    pub options: Vec<Given<'a>>,
    pub operands: &'a [String],
}

/// The first part of some words.
#[derive(Drop)]
pub enum Step<'a> {
    /// These are operands.
    Operands(&'a [String]),
    /// An option that has no value.
    NoValue,
    /// An option, and the words behind it.
    Option(Given<'a>, &'a [String]),
}

/// The place of the first `=`.
fn first_equals(body: &[u8]) -> Option<usize>
    ensures place { result ≡ position is_equals body.now }
    ensures within { IfSome result (λ place. place < length body.now) }
{
    body.iter().position(|byte| *byte == b'=')
}

/// The option whose name ends at a place and whose value begins behind it.
fn cut<'a>(body: &'a [u8], place: usize) -> Given<'a>
    requires { place < length body.now }
    ensures { result ≡ cut_at place body.now }
{
    Given::new(&body[..place], &body[place + 1..])
}

/// The first part of the words, of which the first is an option.
#[tactic(auto, unfolding(crate::specs::Words::split))]
fn option<'a>(word: &'a [u8], behind: &'a [String]) -> Step<'a>
    requires { IsOption word.now }
    ensures { IsAsStepBegins (word.now ∷ map string_bytes behind.now) result }
{
    let body = &word[2..];
    match first_equals(body) {
        Some(place) => Step::Option(cut(body, place), behind),
        None => match behind {
            [] => Step::NoValue,
            [value, after @ ..] => Step::Option(Given::new(body, value.as_bytes()), after),
        },
    }
}

/// The first part of the words.
#[tactic(auto, unfolding(crate::specs::Words::split))]
fn first_part<'a>(words: &'a [String]) -> Step<'a>
    ensures { IsAsStepBegins (map string_bytes words.now) result }
{
    match words {
        [] => Step::Operands(words),
        [word, behind @ ..] => {
            if word.as_str() == "--" {
                return Step::Operands(behind);
            }
            if word.as_str().starts_with("--") {
                return option(word.as_bytes(), behind);
            }
            Step::Operands(words)
        }
    }
}

/// The options and the operands; none where the last option has no value.
pub fn split_words<'a>(alloc: Global, words: &'a [String]) -> Result<Option<Split<'a>>, NoMemory>
    ensures { IfOk result
        (λ parts. option_map split_of parts ≡ split (map string_bytes words.now)) }
{
    let mut options = Vec::new(alloc);
    let mut rest = words;
    'options: loop {
        match first_part(rest) {
            Step::Operands(operands) => return Ok(Some(Split { options, operands })),
            Step::NoValue => return Ok(None),
            Step::Option(given, behind) => {
                options.push(given)?;
                rest = behind;
            }
        }
    }
}
