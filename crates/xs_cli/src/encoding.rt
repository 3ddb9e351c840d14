// Raw pictures become codestreams, one after the other: 'Runs'.
ghost use Rattle.std.specs.Prelude.{◌≡◌, ◌≢◌, ◌+◌, ◌++◌, ◌*◌, ◌%◌, ◌<◌, ◌≤◌, ◌^◌, ℕ, List, [], IfErr, length, flat_map, All, IfOk, is_ok, if◌then◌else◌};
ghost use Rattle.xs_params.specs.Check.{AreInRange};
ghost use Rattle.xs_params.specs.Picture.{raw_size};
ghost use Rattle.xs_words.specs.declared.command.Command.TheVariants as Commands;
ghost use Rattle.xs_words.specs.declared.command.Form.TheVariants as Forms;
ghost use Rattle.xs_endings.specs.Ends.{IsLater, change_of};
ghost use Rattle.xs_endings.specs.Steps.{IsGiven};
ghost use Rattle.xs_endings.specs.Turns.{IsTaken, Writes};
ghost use Rattle.xs_params.specs.Stream.{stream_bytes};
ghost use Rattle.xs_capture.specs.Pictures.{most_pictures};
ghost use Rattle.xs_pack.specs.Datagrams.{IsPackable};
ghost use Rattle.xs_cli.specs.Encoded.{FitsEnvelope, encode_turn, enveloped, file_front, packets_sent, timestamp_of, written_as, written_in};
ghost use Rattle.xs_cli.specs.RawRead.{IsRawOf};
ghost use Rattle.xs_cli.specs.Places.{IsStreamAt, before_of};
ghost use Rattle.xs_cli.specs.Steps.{AreDoneQuietly, IsDoneQuietly, IsOwnNote};

use crate::input::{DONE, MOST_PICTURES, read};
use crate::raw_input::{RawPicture, read_raw};
use std::alloc::Global;
use std::thread::Threads;
use xs_capture::write_frame;
use xs_enc_lanes::encode_threaded;
use xs_endings::{Stop, give};
use xs_faults::SliceRefusal;
use xs_io::{Gate, Memory, Octets, Sink, Source};
use xs_notes::Note;
use xs_pack::{Datagrams, pack};
use xs_params::{Checked, Stream};
use xs_pcap::{file_header, wrap};
use xs_samples::raw_size;
use xs_words::Form;

/// Where a picture stands: its number, its place in the input, and the number of its first packet.
#[derive(Clone, Copy)]
pub struct Place {
    picture: u32,
    byte: u64,
    sequence: u16,
}

/// What a packet is written in: a frame of a capture, or a record of a pcap file.
#[derive(Clone, Copy)]
pub enum Envelope {
    Frame,
    Record { timestamp: u32, port: u16 },
}

/// What each picture of a run is encoded with, and the form that it is written in.
#[derive(Drop)]
pub struct Encoder<'a, T, G> {
    pub threads: &'a T,
    pub alloc: Global,
    pub gate: &'a G,
    pub settings: &'a Checked,
    pub form: Form,
}

impl<'a, T: Threads + Sync, G: Gate> Encoder<'a, T, G> {
    /// Writes what stands before the pictures, and then the pictures.
    pub fn run<R: Source, W: Sink>(&self, input: &mut R, output: &mut W) -> Result<u8, Stop>
        ensures { IsDoneQuietly (Commands.Encode self.now.settings.now self.now.form)
            (change_of (R.left input.old) (R.left input.new) (R.faults input.old) (R.faults input.new))
            (change_of (W.held output.old) (W.held output.new) (W.faults output.old) (W.faults output.new)) result }
    {
        begin(self.form, output)?;
        self.pictures(input, output)
    }

    /// Reads raw pictures one after the other, and writes each as it comes. At most one picture is held at a time.
    fn pictures<R: Source, W: Sink>(&self, input: &mut R, output: &mut W) -> Result<u8, Stop>
        ensures { AreDoneQuietly self.now.settings.now self.now.form
            (change_of (R.left input.old) (R.left input.new) (R.faults input.old) (R.faults input.new))
            (change_of (W.held output.old) (W.held output.new) (W.faults output.old) (W.faults output.new)) result }
    {
        let shape = &self.settings.settings().shape;
        let size = raw_size(shape);
        let mut sequence = 0;
        'pictures: for picture in 0..MOST_PICTURES {
            let Some(raw) = read_raw(self.alloc, input, shape)? else {
                return Ok(DONE);
            };
            let place = place_of(picture, size, sequence);
            let packets = self.put(place, raw, output)?;
            sequence = next_sequence(sequence, packets);
        }
        let more = read(self.alloc, input, 1)?;
        let byte = more.as_slice();
        if byte.is_empty() {
            return Ok(DONE);
        }
        Err(Stop::Told(Note::InputPictures {
            count: MOST_PICTURES + 1,
        }))
    }

    /// Encodes and writes one picture, and answers the number of its packets.
    fn put<W: Sink>(&self, place: Place, raw: RawPicture, output: &mut W) -> Result<u32, Stop>
        requires few { place.picture < most_pictures }
        requires small { place.byte ≤ 2 ^ 36 }
        requires raw { (bytes : List ℕ) × IsRawOf self.now.settings.now.shape bytes raw }
        ensures taken { (bytes : List ℕ) → IsRawOf self.now.settings.now.shape bytes raw → IsTaken (change_of (W.held output.old) (W.held output.new) (W.faults output.old) (W.faults output.new)) (encode_turn self.now.settings.now self.now.form (before_of place) bytes) result }
        ensures own { IfErr result IsOwnNote }
        ensures later { IsLater (change_of (W.held output.old) (W.held output.new) (W.faults output.old) (W.faults output.new)) }
    {
        let stream = self.stream_of(place, raw)?;
        self.write(place, &stream, output)
    }

    /// The codestream of a picture.
    fn stream_of(&self, place: Place, raw: RawPicture) -> Result<Stream, Stop>
        requires few { place.picture < most_pictures }
        requires small { place.byte ≤ 2 ^ 36 }
        requires raw { (bytes : List ℕ) × IsRawOf self.now.settings.now.shape bytes raw }
        ensures stream { (bytes : List ℕ) → IsRawOf self.now.settings.now.shape bytes raw → IsStreamAt self.now.settings.now (before_of place) bytes result }
        ensures packable { IfOk result (IsPackable self.now.settings.now) }
        ensures range { AreInRange self.now.settings.now }
        ensures own { IfErr result IsOwnNote }
    {
        known_settings(self.settings);
        let planes = match raw {
            RawPicture::Whole(planes) => planes,
            RawPicture::Cut { length } => {
                return Err(Stop::Told(Note::InputCut {
                    place: place.byte + u64::from(length),
                }));
            }
            RawPicture::Sample { place: at } => {
                return Err(Stop::Told(Note::InputSample {
                    place: place.byte + u64::from(at),
                }));
            }
        };
        match encode_threaded(self.threads, self.alloc, &planes, self.settings, self.gate) {
            Ok(encoded) => Ok(encoded.stream),
            Err(SliceRefusal::Budget(budget)) => Err(Stop::Told(Note::Budget {
                picture: place.picture,
                slice: budget.slice,
                size: budget.size,
                share: budget.share,
            })),
            Err(SliceRefusal::Memory) => Err(Stop::Memory),
        }
    }

    /// Writes a codestream as one piece, or each of its packets as one.
    fn write<W: Sink>(&self, place: Place, stream: &Stream, output: &mut W) -> Result<u32, Stop>
        requires few { place.picture < most_pictures }
        requires packable { IsPackable self.now.settings.now stream.now }
        requires range { AreInRange self.now.settings.now }
        ensures taken { IsTaken (change_of (W.held output.old) (W.held output.new) (W.faults output.old) (W.faults output.new)) (written_as self.now.settings.now self.now.form (before_of place) stream.now) result }
        ensures own { IfErr result IsOwnNote }
        ensures later { IsLater (change_of (W.held output.old) (W.held output.new) (W.faults output.old) (W.faults output.new)) }
    {
        match self.form {
            Form::Xs => write_stream(self.alloc, stream, output),
            Form::Rtp => self.write_packets(Envelope::Frame, place, stream, output),
            Form::Pcap { port } => {
                let timestamp = timestamp_of(self.settings, place.picture);
                let record = Envelope::Record { timestamp, port };
                self.write_packets(record, place, stream, output)
            }
        }
    }

    /// Writes the packets of a codestream, each after its length, and answers their number.
    fn write_packets<W: Sink>(
        &self,
        envelope: Envelope,
        place: Place,
        stream: &Stream,
        output: &mut W,
    ) -> Result<u32, Stop>
        requires few { place.picture < most_pictures }
        requires packable { IsPackable self.now.settings.now stream.now }
        requires range { AreInRange self.now.settings.now }
        ensures taken { IsTaken (change_of (W.held output.old) (W.held output.new) (W.faults output.old) (W.faults output.new)) (written_in self.now.settings.now envelope (packets_sent self.now.settings.now (before_of place) stream.now)) result }
        ensures own { IfErr result IsOwnNote }
        ensures later { IsLater (change_of (W.held output.old) (W.held output.new) (W.faults output.old) (W.faults output.new)) }
    {
        let packets = pack(
            self.alloc,
            stream,
            self.settings,
            place.picture,
            place.sequence,
        )?;
        match give_packets(self.alloc, &packets, envelope, output) {
            Ok(()) => Ok(packets.len()),
            Err(why) => Err(why),
        }
    }
}

/// Gives the header of a pcap file, as one piece.
fn begin<W: Sink>(form: Form, output: &mut W) -> Result<(), Stop>
    ensures { IsGiven (change_of (W.held output.old) (W.held output.new) (W.faults output.old) (W.faults output.new)) (file_front form) result }
{
    match form {
        Form::Pcap { .. } => give(output, &file_header()),
        Form::Rtp | Form::Xs => Ok(()),
    }
}

/// Where a picture stands.
fn place_of(picture: u32, size: usize, sequence: u16) -> Place
    requires few { picture < most_pictures }
    requires short { size < 2 ^ 28 }
    ensures place { before_of result ≡ record { pictures = picture; bytes = picture * size; sequence = sequence } }
    ensures picture { result.picture ≡ picture }
    ensures small { result.byte ≤ 2 ^ 36 }
{
    Place {
        picture,
        byte: u64::from(picture) * size as u64,
        sequence,
    }
}

/// The number of the packet that comes after so many.
fn next_sequence(sequence: u16, packets: u32) -> u16
    ensures { result ≡ (sequence + packets) % 2 ^ 16 }
{
    sequence.wrapping_add((packets % (1 << 16)) as u16)
}

// What is true of all settings that were checked.
fn known_settings(settings: &Checked)
    ensures { AreInRange settings.now }
{
    let _settings = settings.settings();
}

/// Writes a codestream, which has no packets.
fn write_stream<W: Sink>(alloc: Global, stream: &Stream, output: &mut W) -> Result<u32, Stop>
    ensures taken { (size : ℕ) → IsTaken (change_of (W.held output.old) (W.held output.new) (W.faults output.old) (W.faults output.new)) (Writes size (stream_bytes stream.now) 0) result }
    ensures own { IfErr result IsOwnNote }
    ensures later { IsLater (change_of (W.held output.old) (W.held output.new) (W.faults output.old) (W.faults output.new)) }
{
    let bytes = stream.bytes(alloc)?;
    match give(output, bytes.as_slice()) {
        Ok(()) => Ok(0),
        Err(why) => Err(why),
    }
}

/// Gives packets one after the other.
fn give_packets<W: Sink>(
    alloc: Global,
    packets: &Datagrams,
    envelope: Envelope,
    output: &mut W,
) -> Result<(), Stop>
    requires short { All FitsEnvelope packets.now }
    ensures { IsGiven (change_of (W.held output.old) (W.held output.new) (W.faults output.old) (W.faults output.new)) (flat_map (enveloped envelope) packets.now) result }
{
    'giving: for number in 0..packets.len() {
        give_packet(alloc, packets.get(number), envelope, output)?;
    }
    Ok(())
}

/// Gives a packet in its envelope, as one piece.
fn give_packet<W: Sink>(
    alloc: Global,
    packet: &[u8],
    envelope: Envelope,
    output: &mut W,
) -> Result<(), Stop>
    requires short { FitsEnvelope packet.now }
    ensures { IsGiven (change_of (W.held output.old) (W.held output.new) (W.faults output.old) (W.faults output.new)) (enveloped envelope packet.now) result }
{
    let mut bytes = Octets::new(alloc);
    envelop(alloc, &mut bytes, packet, envelope)?;
    give(output, bytes.as_slice())
}

/// Appends a packet in its envelope. Where it is refused, the list is as before.
fn envelop(alloc: Global, out: &mut Octets, packet: &[u8], envelope: Envelope) -> Result<(), Memory>
    requires { FitsEnvelope packet.now }
    ensures { out.new ≡ (if is_ok result then out.old ++ enveloped envelope packet.now else out.old) }
{
    match envelope {
        Envelope::Frame => write_frame(alloc, out, packet),
        Envelope::Record { timestamp, port } => wrap(alloc, out, packet, timestamp, port),
    }
}

/// The timestamp of a picture.
fn timestamp_of(settings: &Checked, picture: u32) -> u32
    requires { picture < most_pictures }
    ensures { result ≡ timestamp_of settings.now picture }
{
    let settings = settings.settings();
    settings.first_timestamp + picture * settings.step
}
