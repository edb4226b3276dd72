//! The options that a command was given.
ghost use Rattle.std.specs.Prelude.{◌≡◌, ◌≤◌, ◌^◌, map, option_map, bytes_eq, IfSome};
ghost use Rattle.std.specs.List.{list_any};
ghost use Rattle.et_command.specs.Command.{option_value, are_options, number_or, capacity};

use crate::numbers::number;
use crate::split::Given;

/// The value of the option of this name, if it was given.
#[tactic(auto, using(crate::proofs::OptionLemmas::value_next))]
pub fn value_of<'a>(name: &[u8], options: &[Given<'a>]) -> Option<&'a [u8]>
    ensures { option_map (λ value. value.now) result ≡ option_value name.now options.now }
{
    'options: for option in options {
        if name == option.name() {
            return Some(option.value());
        }
    }
    None
}

fn has(names: &[&[u8]], name: &[u8]) -> bool
    ensures { result ≡ list_any (λ other. bytes_eq other.now name.now) names.now }
{
    names.iter().any(|other| *other == name)
}

/// Whether the name is one of these.
fn is_among(name: &[u8], names: &[&[u8]]) -> bool
    ensures { result
        ≡ list_any (λ other. bytes_eq other name.now) (map (λ other. other.now) names.now) }
{
    has(names, name)
}

/// Whether each option is one of these, and none stands twice.
#[tactic(auto, using(crate::proofs::OptionLemmas::options_next))]
pub fn are_options(names: &[&[u8]], options: &[Given<'_>]) -> bool
    ensures { result ≡ are_options (map (λ name. name.now) names.now) options.now }
{
    'options: for (place, option) in options.iter().enumerate() {
        let behind = &options[place + 1..];
        if !is_among(option.name(), names) || value_of(option.name(), behind).is_some() {
            return false;
        }
    }
    true
}

/// A number in a range, or the default where the option isn't there.
pub fn number_or(default: u64, low: u64, high: u64, value: Option<&[u8]>) -> Option<u64>
    requires { high ≤ 2 ^ 60 }
    ensures number { result
        ≡ number_or default low high (option_map (λ text. text.now) value.entry) }
    ensures range { low ≤ default → default ≤ high → IfSome result (λ n. (low ≤ n) × (n ≤ high)) }
{
    match value {
        None => Some(default),
        Some(text) => number(text, low, high),
    }
}

/// The greatest capacity of a model, in bytes.
const MOST_BYTES: u64 = 1 << 60;

/// A capacity in bytes, from 1 to 2^60, where the option is there.
pub fn capacity(value: Option<&[u8]>) -> Option<Option<u64>>
    ensures { result ≡ capacity (option_map (λ text. text.now) value.entry) }
{
    match value {
        None => Some(None),
        Some(text) => number(text, 1, MOST_BYTES).map(Some),
    }
}
