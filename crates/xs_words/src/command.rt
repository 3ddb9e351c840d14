// What a command asks for.
ghost use Rattle.std.specs.Prelude.{◌≡◌, ◌<◌, ◌^◌, None, Some, IfOk, codes, map, true};
ghost use Rattle.std.specs.Result.{result_err};
ghost use Rattle.std.specs.String.{string_bytes};
ghost use Rattle.xs_lists.specs.First.{first_of};
ghost use Rattle.xs_params.specs.Check.{setting_refusals};
ghost use Rattle.xs_words.specs.Command.{IsSound, command_of, form_of, format_of, given_number, is_given, quant_of, settings_of, trial_settings_of};
ghost use Rattle.xs_words.specs.Narrow.{as_asked, fitting, narrowed};
ghost use Rattle.xs_words.specs.Refusal.{decoding_refusals, refusal_of, refused_settings};
ghost use Rattle.xs_words.specs.Table.{decode_rows, encode_rows, trial_rows};
ghost use Rattle.xs_words.specs.Words.{bad_place, is_number, is_numeric, table_of, value_of, word_in};
ghost use Rattle.xs_words.specs.declared.command.Command.TheVariants.{Encode, Decode, Trial};

use crate::grammar::{bad_place, value_of, word_in};
use crate::option::number;
use std::alloc::Global;
use thiserror::Error;
use xs_io::Octets;
use xs_layout::limits::{MOST_FEEDERS, MOST_PORT, MOST_WORKERS};
use xs_params::{Checked, Field, Format, Mode, Quant, Setting, Settings, Shape};

/// How codestreams travel.
#[derive(Clone, Copy, Debug, PartialEq, Eq)]
pub enum Form {
    /// In a capture of RTP packets.
    Rtp,
    /// One after the other.
    Xs,
    /// In a pcap file of such packets, which go to this port. Where they are read 0 is any.
    Pcap { port: u16 },
}

/// What words ask for.
#[derive(Debug, Drop)]
pub enum Command {
    /// Raw pictures are to become codestreams.
    Encode {
        settings: Checked,
        form: Form,
    },
    /// Codestreams are to become raw pictures.
    Decode {
        form: Form,
        workers: u32,
        feeders: u32,
    },
    /// A picture made of a number is to be encoded, sent and received.
    Trial {
        settings: Checked,
        seed: u32,
    },
}

/// Why a command is refused.
#[derive(Clone, Copy, Debug, PartialEq, Eq, Error)]
pub enum Refusal {
    /// The place of the first bad word, counted from 0; the number of words where they end too early.
    #[error("the words are no command")]
    Words { place: u32 },
    /// The first setting that is refused, with the value that was asked for.
    #[error("a setting is out of range")]
    Setting(Setting),
}

/// The command that the words are, its settings checked. The words are those after the program's name.
pub fn command_of(alloc: Global, words: &[String]) -> Result<Command, Refusal>
    ensures refused { result_err result ≡ refusal_of (map string_bytes words.now) }
    ensures asked { IfOk result (λ command. command ≡ command_of (map string_bytes words.now)) }
    ensures sound { IfOk result IsSound }
{
    if let Some(place) = bad_place(words) {
        return Err(Refusal::Words {
            place: place as u32,
        });
    }
    match asked(alloc, words) {
        Ok(command) => Ok(command),
        Err(setting) => Err(Refusal::Setting(setting)),
    }
}

/// What words that are a command ask for.
fn asked(alloc: Global, words: &[String]) -> Result<Command, Setting>
    requires whole { bad_place (map string_bytes words.now) ≡ None }
    ensures refused { result_err result ≡ first_of (refused_settings (map string_bytes words.now) (command_of (map string_bytes words.now))) }
    ensures asked { IfOk result (λ command. command ≡ command_of (map string_bytes words.now)) }
    ensures sound { IfOk result IsSound }
{
    match word_in(words, 0) {
        "encode" => encoding(alloc, words),
        "decode" => decoding(words),
        _ => trying(alloc, words),
    }
}

/// What words of `encode` ask for.
fn encoding(alloc: Global, words: &[String]) -> Result<Command, Setting>
    requires encode { table_of (word_in (map string_bytes words.now) 0) ≡ Some encode_rows }
    requires whole { bad_place (map string_bytes words.now) ≡ None }
    ensures refused { result_err result ≡ first_of (setting_refusals (settings_of (map string_bytes words.now))) }
    ensures asked { IfOk result (λ command. command ≡ Encode (settings_of (map string_bytes words.now)) (form_of (map string_bytes words.now))) }
{
    match settings_of(alloc, words).check() {
        Ok(settings) => Ok(Command::Encode {
            settings,
            form: form_of(words, encode_number(words, "--port")),
        }),
        Err(setting) => Err(as_asked(words, setting)),
    }
}

/// What words of `trial` ask for.
fn trying(alloc: Global, words: &[String]) -> Result<Command, Setting>
    requires trial { table_of (word_in (map string_bytes words.now) 0) ≡ Some trial_rows }
    requires whole { bad_place (map string_bytes words.now) ≡ None }
    ensures refused { result_err result ≡ first_of (setting_refusals (trial_settings_of (map string_bytes words.now))) }
    ensures asked { IfOk result (λ command. command ≡ Trial (trial_settings_of (map string_bytes words.now)) (given_number (map string_bytes words.now) (codes "--seed"))) }
{
    match trial_settings_of(alloc, words).check() {
        Ok(settings) => Ok(Command::Trial {
            settings,
            seed: trial_number(words, "--seed"),
        }),
        Err(setting) => Err(trial_as_asked(words, setting)),
    }
}

/// The settings that words of `trial` ask for. A number that its field has no room for becomes one that is refused in the
/// same place.
fn trial_settings_of(alloc: Global, words: &[String]) -> Settings
    requires trial { table_of (word_in (map string_bytes words.now) 0) ≡ Some trial_rows }
    requires whole { bad_place (map string_bytes words.now) ≡ None }
    ensures { result ≡ narrowed (trial_settings_of (map string_bytes words.now)) }
{
    Settings {
        shape: Shape {
            width: trial_number(words, "--width"),
            height: trial_number(words, "--height"),
            format: Format::C422,
            depth: 8,
        },
        bits: 20,
        nlx: 5,
        nly: 2,
        hsl: 4,
        colour: false,
        quant: Quant::Uniform,
        signs_apart: false,
        weights: None,
        share: trial_number(words, "--share"),
        fill: false,
        chunk: 1400,
        mode: Mode::Slice,
        payload_type: 96,
        ssrc: 1,
        first_timestamp: 0,
        step: 1500,
        boxes: Octets::new(alloc),
        workers: u8::try_from(trial_number(words, "--workers")).unwrap_or(u8::MAX),
        feeders: u8::try_from(trial_number(words, "--feeders")).unwrap_or(u8::MAX),
        port: 5004,
    }
}

/// A refused setting of `trial` with the value that was asked for.
fn trial_as_asked(words: &[String], setting: Setting) -> Setting
    requires trial { table_of (word_in (map string_bytes words.now) 0) ≡ Some trial_rows }
    requires whole { bad_place (map string_bytes words.now) ≡ None }
    ensures { result ≡ as_asked (trial_settings_of (map string_bytes words.now)) setting }
{
    let value = match setting.field {
        Field::Depth => 8,
        Field::Bits => 20,
        Field::Nlx => 5,
        Field::Nly => 2,
        Field::Hsl => 4,
        Field::PayloadType => 96,
        Field::Workers => u64::from(trial_number(words, "--workers")),
        Field::Feeders => u64::from(trial_number(words, "--feeders")),
        _ => setting.value,
    };
    Setting {
        field: setting.field,
        value,
    }
}

/// The number that an option of `trial` is given, or has by default.
fn trial_number(words: &[String], name: &str) -> u32
    requires trial { table_of (word_in (map string_bytes words.now) 0) ≡ Some trial_rows }
    requires whole { bad_place (map string_bytes words.now) ≡ None }
    requires number { is_numeric trial_rows name.now ≡ true }
    ensures { result ≡ given_number (map string_bytes words.now) name.now }
{
    number_of(words, name)
}

/// What words of `decode` ask for.
fn decoding(words: &[String]) -> Result<Command, Setting>
    requires decode { table_of (word_in (map string_bytes words.now) 0) ≡ Some decode_rows }
    requires whole { bad_place (map string_bytes words.now) ≡ None }
    ensures refused { result_err result ≡ first_of (decoding_refusals (given_number (map string_bytes words.now) (codes "--workers")) (given_number (map string_bytes words.now) (codes "--feeders")) (given_number (map string_bytes words.now) (codes "--port"))) }
    ensures asked { IfOk result (λ command. command ≡ Decode (form_of (map string_bytes words.now)) (given_number (map string_bytes words.now) (codes "--workers")) (given_number (map string_bytes words.now) (codes "--feeders"))) }
{
    let workers = number_of(words, "--workers");
    let feeders = number_of(words, "--feeders");
    let port = number_of(words, "--port");
    match decoding_refusal(workers, feeders, port) {
        Some(setting) => Err(setting),
        None => Ok(Command::Decode {
            form: form_of(words, port),
            workers,
            feeders,
        }),
    }
}

fn decoding_refusal(workers: u32, feeders: u32, port: u32) -> Option<Setting>
    ensures first { result ≡ first_of (decoding_refusals workers feeders port) }
    ensures small { result ≡ None → port < 2 ^ 16 }
{
    if !(1..=u32::from(MOST_WORKERS)).contains(&workers) {
        return Some(Setting {
            field: Field::Workers,
            value: u64::from(workers),
        });
    }
    if !(1..=u32::from(MOST_FEEDERS)).contains(&feeders) {
        return Some(Setting {
            field: Field::Feeders,
            value: u64::from(feeders),
        });
    }
    if port > MOST_PORT {
        return Some(Setting {
            field: Field::Port,
            value: u64::from(port),
        });
    }
    None
}

/// The settings that words of `encode` ask for. A number that its field has no room for becomes one that is refused in
/// the same place.
fn settings_of(alloc: Global, words: &[String]) -> Settings
    requires encode { table_of (word_in (map string_bytes words.now) 0) ≡ Some encode_rows }
    requires whole { bad_place (map string_bytes words.now) ≡ None }
    ensures { result ≡ narrowed (settings_of (map string_bytes words.now)) }
{
    Settings {
        shape: shape_of(words),
        bits: byte_of(words, "--bits"),
        nlx: byte_of(words, "--nlx"),
        nly: byte_of(words, "--nly"),
        hsl: u16::try_from(encode_number(words, "--slice")).unwrap_or(0),
        colour: is_given(words, "--colour", "1"),
        quant: quant_of(words),
        signs_apart: is_given(words, "--signs", "apart"),
        weights: None,
        share: encode_number(words, "--share"),
        fill: is_given(words, "--fill", "1"),
        chunk: encode_number(words, "--chunk"),
        mode: Mode::Slice,
        payload_type: byte_of(words, "--pt"),
        ssrc: encode_number(words, "--ssrc"),
        first_timestamp: encode_number(words, "--time"),
        step: encode_number(words, "--step"),
        boxes: Octets::new(alloc),
        workers: byte_of(words, "--workers"),
        feeders: 2,
        port: encode_number(words, "--port"),
    }
}

fn shape_of(words: &[String]) -> Shape
    requires encode { table_of (word_in (map string_bytes words.now) 0) ≡ Some encode_rows }
    requires whole { bad_place (map string_bytes words.now) ≡ None }
    ensures { result ≡ (narrowed (settings_of (map string_bytes words.now))).shape }
{
    Shape {
        width: encode_number(words, "--width"),
        height: encode_number(words, "--height"),
        format: format_of(words),
        depth: byte_of(words, "--depth"),
    }
}

fn format_of(words: &[String]) -> Format
    ensures { result ≡ format_of (map string_bytes words.now) }
{
    match value_of(words, "--format") {
        "mono" => Format::Mono,
        "444" => Format::C444,
        _ => Format::C422,
    }
}

fn quant_of(words: &[String]) -> Quant
    ensures { result ≡ quant_of (map string_bytes words.now) }
{
    match value_of(words, "--quant") {
        "deadzone" => Quant::DeadZone,
        _ => Quant::Uniform,
    }
}

/// The form, with the port that is given, or is so by default.
fn form_of(words: &[String], port: u32) -> Form
    requires given { port ≡ given_number (map string_bytes words.now) (codes "--port") }
    requires small { port < 2 ^ 16 }
    ensures { result ≡ form_of (map string_bytes words.now) }
{
    match value_of(words, "--form") {
        "xs" => Form::Xs,
        "pcap" => Form::Pcap { port: port as u16 },
        _ => Form::Rtp,
    }
}

/// Whether the value of an option is this word.
fn is_given(words: &[String], name: &str, word: &str) -> bool
    ensures { result ≡ is_given (map string_bytes words.now) name.now word.now }
{
    value_of(words, name) == word
}

/// A refused setting of `encode` with the value that was asked for.
fn as_asked(words: &[String], setting: Setting) -> Setting
    requires encode { table_of (word_in (map string_bytes words.now) 0) ≡ Some encode_rows }
    requires whole { bad_place (map string_bytes words.now) ≡ None }
    ensures { result ≡ as_asked (settings_of (map string_bytes words.now)) setting }
{
    let value = match setting.field {
        Field::Depth => u64::from(encode_number(words, "--depth")),
        Field::Bits => u64::from(encode_number(words, "--bits")),
        Field::Nlx => u64::from(encode_number(words, "--nlx")),
        Field::Nly => u64::from(encode_number(words, "--nly")),
        Field::Hsl => u64::from(encode_number(words, "--slice")),
        Field::PayloadType => u64::from(encode_number(words, "--pt")),
        Field::Workers => u64::from(encode_number(words, "--workers")),
        Field::Feeders => 2,
        _ => setting.value,
    };
    Setting {
        field: setting.field,
        value,
    }
}

/// The number that an option of `encode` is given, or has by default; 255 where it has more than 8 bits.
fn byte_of(words: &[String], name: &str) -> u8
    requires encode { table_of (word_in (map string_bytes words.now) 0) ≡ Some encode_rows }
    requires whole { bad_place (map string_bytes words.now) ≡ None }
    requires number { is_numeric encode_rows name.now ≡ true }
    ensures { result ≡ fitting 8 255 (given_number (map string_bytes words.now) name.now) }
{
    u8::try_from(encode_number(words, name)).unwrap_or(u8::MAX)
}

/// The number that an option of `encode` is given, or has by default.
fn encode_number(words: &[String], name: &str) -> u32
    requires encode { table_of (word_in (map string_bytes words.now) 0) ≡ Some encode_rows }
    requires whole { bad_place (map string_bytes words.now) ≡ None }
    requires number { is_numeric encode_rows name.now ≡ true }
    ensures { result ≡ given_number (map string_bytes words.now) name.now }
{
    number_of(words, name)
}

/// The number that an option is given, or has by default.
fn number_of(words: &[String], name: &str) -> u32
    requires { is_number (value_of (map string_bytes words.now) name.now) ≡ true }
    ensures { result ≡ given_number (map string_bytes words.now) name.now }
{
    number(value_of(words, name)).unwrap()
}
