// Which words are a command.
ghost use Rattle.std.specs.Prelude.{◌≡◌, ◌<◌, ◌≤◌, find, length, map, IfSome, Some};
ghost use Rattle.std.specs.List.{list_any};
ghost use Rattle.std.specs.String.{string_bytes};
ghost use Rattle.xs_words.specs.Options.{row_of_option, rows_of};
ghost use Rattle.xs_words.specs.Words.{bad_place, default_of, end_early, is_bad_name, is_bad_value, is_bad_word, is_missing, is_name_at, is_name_place, is_named_before, name_place, places_of_words, table_of, value_of, word_in};

use crate::option::{CommandOption, option_named, table_of};

/// The place of the first word that is not as the command asks, or the number of words where they end too early.
pub fn bad_place(words: &[String]) -> Option<usize>
    ensures place { result ≡ bad_place (map string_bytes words.now) }
    ensures near { IfSome result (λ place. place ≤ 43) }
{
    match table_of(word_in(words, 0)) {
        Some(options) => bad_place_after(options, words),
        None => Some(0),
    }
}

/// The same, where the first word is the command of these options.
fn bad_place_after(options: &'static [CommandOption], words: &[String]) -> Option<usize>
    requires { table_of (word_in (map string_bytes words.now) 0) ≡ Some (rows_of options.now) }
    ensures { result ≡ bad_place (map string_bytes words.now) }
{
    match first_bad_word(options, words) {
        Some(place) => Some(place),
        None => ends_early(options, words).then_some(words.len()),
    }
}

/// The word at a place, and an empty one past the end.
pub fn word_in(words: &[String], place: usize) -> &str
    ensures { result.now ≡ word_in (map string_bytes words.now) place }
{
    match words.get(place) {
        Some(word) => word.as_str(),
        None => "",
    }
}

/// The value of an option: the word after its name, or else its default.
pub fn value_of<'a>(words: &'a [String], name: &str) -> &'a str
    ensures { result.now ≡ value_of (map string_bytes words.now) name.now }
{
    match name_place(words, name) {
        Some(place) => word_in(words, place + 1),
        None => default_of(words, name),
    }
}

/// The default of an option of the words' command.
fn default_of(words: &[String], name: &str) -> &'static str
    ensures { result.now ≡ default_of (map string_bytes words.now) name.now }
{
    let Some(options) = table_of(word_in(words, 0)) else {
        return "";
    };
    match option_named(options, name) {
        Some(option) => option.default().unwrap_or(""),
        None => "",
    }
}

/// The place of the first word after the command that is not as it should be.
fn first_bad_word(options: &'static [CommandOption], words: &[String]) -> Option<usize>
    ensures { result ≡ find (is_bad_word (rows_of options.now) (map string_bytes words.now)) (places_of_words (map string_bytes words.now)) }
{
    (1..words.len()).find(|place| is_bad_word(options, words, *place))
}

/// Whether the words end where a value is missing, or without a required option.
fn ends_early(options: &[CommandOption], words: &[String]) -> bool
    ensures { result ≡ end_early (rows_of options.now) (map string_bytes words.now) }
{
    words.len() % 2 == 0 || lacks_option(options, words)
}

/// Whether a required option is not among the words.
fn lacks_option(options: &[CommandOption], words: &[String]) -> bool
    ensures { result ≡ list_any (is_missing (map string_bytes words.now)) (rows_of options.now) }
{
    options.iter().any(|option| is_missing(words, *option))
}

fn is_missing(words: &[String], option: CommandOption) -> bool
    ensures { result ≡ is_missing (map string_bytes words.now) (row_of_option option) }
{
    option.default().is_none() && name_place(words, option.name()).is_none()
}

/// The place of an option's name.
fn name_place(words: &[String], name: &str) -> Option<usize>
    ensures place { result ≡ name_place (map string_bytes words.now) name.now }
    ensures within { IfSome result (λ place. place < length words.now) }
{
    (0..words.len()).find(|place| is_name_at(words, name, *place))
}

fn is_bad_word(options: &'static [CommandOption], words: &[String], place: usize) -> bool
    ensures { result ≡ is_bad_word (rows_of options.now) (map string_bytes words.now) place }
{
    if is_name_place(place) {
        is_bad_name(options, words, place)
    } else {
        is_bad_value(options, words, place)
    }
}

/// Whether the word names no option, or one that was named before.
fn is_bad_name(options: &'static [CommandOption], words: &[String], place: usize) -> bool
    ensures { result ≡ is_bad_name (rows_of options.now) (map string_bytes words.now) place }
{
    let word = word_in(words, place);
    option_named(options, word).is_none() || is_named_before(words, word, place)
}

/// Whether the word stands as a name before the place.
fn is_named_before(words: &[String], word: &str, place: usize) -> bool
    ensures { result ≡ is_named_before (map string_bytes words.now) word.now place }
{
    (0..place).any(|before| is_name_at(words, word, before))
}

/// Whether the word is no value of the option before it.
fn is_bad_value(options: &'static [CommandOption], words: &[String], place: usize) -> bool
    ensures { result ≡ is_bad_value (rows_of options.now) (map string_bytes words.now) place }
{
    match option_named(options, word_in(words, place.saturating_sub(1))) {
        Some(option) => !option.takes(word_in(words, place)),
        None => true,
    }
}

/// Whether the word at a place is this name.
fn is_name_at(words: &[String], name: &str, place: usize) -> bool
    ensures { result ≡ is_name_at (map string_bytes words.now) name.now place }
{
    is_name_place(place) && word_in(words, place) == name
}

/// Names stand at the odd places, and values at the even ones after them.
fn is_name_place(place: usize) -> bool
    ensures { result ≡ is_name_place place }
{
    place % 2 == 1
}
