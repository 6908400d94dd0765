//! The options that words give.

ghost use Rattle.std.specs.Prelude.{◌≡◌, ◌&&◌, ◌||◌, map};
ghost use Rattle.std.specs.List.{list_all, list_any};
ghost use Rattle.std.specs.Str.{bytes_eq};
ghost use Rattle.cas_command.specs.Parts.{given_view, text_of, texts};
ghost use Rattle.cas_command.specs.Words as w;

use crate::parts::Given;

/// Whether each option is one of `world`, and is given once.
pub(crate) fn are_of_world(options: &[Given]) -> bool
    ensures { result ≡ w.are_options w.world_options (map given_view options.now) }
{
    each_is_of_world(options) && stand_once(options)
}

// Whether each option is one of `world`.
fn each_is_of_world(options: &[Given]) -> bool
    ensures { result ≡ list_all (λ given. list_any (bytes_eq given.option) w.world_options)
        (map given_view options.now) }
{
    options.iter().all(|given| is_of_world(given.option))
}

// Whether this is an option of `world`.
fn is_of_world(option: &str) -> bool
    ensures { result ≡ list_any (bytes_eq option.now) w.world_options }
{
    option == "--threads" || option == "--schedule" || option == "--rounds"
}

// Whether no option is given twice.
fn stand_once(options: &[Given]) -> bool
    ensures { result ≡ w.stand_once (map given_view options.now) }
{
    for (place, given) in options.iter().enumerate() {
        if value_of(given.option, &options[place + 1..]).is_some() {
            return false;
        }
    }
    true
}

/// The value of an option, if it is given.
pub(crate) fn value_of<'a>(option: &str, options: &[Given<'a>]) -> Option<&'a str>
    ensures { text_of result ≡ w.value_of option.now (map given_view options.now) }
{
    let given = options.iter().find(|given| given.option == option)?;
    Some(given.value)
}
