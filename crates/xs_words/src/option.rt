// Commands and their options.
ghost use Rattle.std.specs.Prelude.{◌≡◌, if◌then◌else◌, None, Some};
ghost use Rattle.std.specs.Option.{option_map};
ghost use Rattle.std.specs.Str.{all_ascii_digits};
ghost use Rattle.xs_words.specs.Options.{row_of_option, rows_of};
ghost use Rattle.xs_words.specs.Words.{is_number, is_value, decimal_value, row_named, table_of};

/// An option of a command: the word that names it, and its default.
#[derive(Clone, Copy)]
pub enum CommandOption {
    /// A number; the words are no command without it.
    Required(&'static str),
    Number(&'static str, &'static str),
    /// One of the words in the middle.
    Choice(&'static str, &'static [&'static str], &'static str),
}

use CommandOption::{Choice, Number, Required};

static ENCODE: [CommandOption; 21] = [
    Required("--width"),
    Required("--height"),
    Required("--share"),
    Choice("--format", &["mono", "422", "444"], "422"),
    Number("--depth", "8"),
    Number("--bits", "20"),
    Number("--nlx", "5"),
    Number("--nly", "2"),
    Number("--slice", "4"),
    Choice("--colour", &["0", "1"], "0"),
    Choice("--quant", &["deadzone", "uniform"], "uniform"),
    Choice("--signs", &["in", "apart"], "in"),
    Choice("--fill", &["0", "1"], "0"),
    Number("--chunk", "1400"),
    Number("--pt", "96"),
    Number("--ssrc", "1"),
    Number("--time", "0"),
    Number("--step", "1500"),
    Choice("--form", &["rtp", "xs", "pcap"], "rtp"),
    Number("--workers", "4"),
    Number("--port", "5004"),
];

static TRIAL: [CommandOption; 6] = [
    Number("--seed", "1"),
    Number("--width", "256"),
    Number("--height", "128"),
    Number("--share", "4000"),
    Number("--workers", "4"),
    Number("--feeders", "2"),
];

static DECODE: [CommandOption; 4] = [
    Choice("--form", &["rtp", "xs", "pcap"], "rtp"),
    Number("--workers", "4"),
    Number("--feeders", "2"),
    Number("--port", "0"),
];

/// The options of the command that a word begins.
pub fn table_of(word: &str) -> Option<&'static [CommandOption]>
    ensures { option_map (λ options. rows_of options.now) result ≡ table_of word.now }
{
    match word {
        "encode" => Some(&ENCODE),
        "decode" => Some(&DECODE),
        "trial" => Some(&TRIAL),
        _ => None,
    }
}

/// The option that a word names.
pub fn option_named(options: &'static [CommandOption], word: &str) -> Option<CommandOption>
    ensures { option_map row_of_option result ≡ row_named (rows_of options.now) word.now }
{
    options.iter().find(|option| word == option.name()).copied()
}

impl CommandOption {
    pub fn name(self) -> &'static str
        ensures { result.now ≡ (row_of_option self).name }
    {
        match self {
            Required(name) | Number(name, _) | Choice(name, _, _) => name,
        }
    }

    pub fn default(self) -> Option<&'static str>
        ensures { option_map (λ word. word.now) result ≡ (row_of_option self).default }
    {
        match self {
            Required(_) => None,
            Number(_, default) | Choice(_, _, default) => Some(default),
        }
    }

    /// Whether a word is a value of the option.
    pub fn takes(self, value: &str) -> bool
        ensures { result ≡ is_value (row_of_option self).kind value.now }
    {
        match self {
            Required(_) | Number(_, _) => number(value).is_some(),
            Choice(_, words, _) => words.contains(&value),
        }
    }
}

/// The number that a word spells: one to ten decimal digits, and a value of 32 bits.
pub fn number(word: &str) -> Option<u32>
    ensures { result ≡ (if is_number word.now then Some (decimal_value word.now) else None) }
{
    if word.len() > 10 || !has_only_digits(word) {
        return None;
    }
    word.parse().ok()
}

fn has_only_digits(word: &str) -> bool
    ensures { result ≡ all_ascii_digits word.now }
{
    word.as_bytes().iter().all(|byte| byte.is_ascii_digit())
}
