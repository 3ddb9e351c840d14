// A picture that is made of a number is encoded, sent twice in another order, received and compared: 'Trial'.
ghost use Rattle.std.specs.Prelude.{◌≡◌, ◌<◌, ◌≤◌, ◌^◌, ◌++◌, ℕ, [], Ok, Some, IfOk, OnOk, IsSome, length};
ghost use Rattle.xs_capture.specs.Offers.{offer_of, offers_of};
ghost use Rattle.xs_capture.specs.Pictures.{dealt_parts};
ghost use Rattle.xs_params.specs.Check.{AreInRange};
ghost use Rattle.xs_params.specs.Picture.{Picture};
ghost use Rattle.xs_rate.specs.Encoding.{encoding_of};
ghost use Rattle.xs_trial.specs.Generator.{shuffle_of};
ghost use Rattle.xs_endings.specs.Ends.{change_of};
ghost use Rattle.xs_cli.specs.Tried.{IsTrialOutcome, number_line, outcome_lines};
ghost use Rattle.xs_cli.specs.TriedLaws.{OneTrial, TrialsAnswered};
ghost use Rattle.xs_cli.specs.Trying.{AreOffered, HasTried, IsEncodedOr, IsLinesOf, IsTrialSized, in_order};

use crate::input::DONE;
use std::alloc::Global;
use std::thread::Threads;
use xs_capture::{Packet, Parts, offer};
use xs_enc_lanes::encode_threaded;
use xs_endings::{Stop, give};
use xs_faults::SliceRefusal;
use xs_io::{Gate, Memory, Octets, Sink};
use xs_notes::Note;
use xs_pack::{Datagrams, pack};
use xs_params::{Checked, Planes, Stream};
use xs_recv::{Received, Reception, receive_picture};
use xs_trial::{Comparison, compare, shuffle, trial_picture};

/// What a trial came to.
#[derive(Clone, Copy)]
pub struct TrialOutcome {
    slices: u32,
    bytes: u64,
    packets: u32,
    found: Comparison,
}

impl TrialOutcome {
    /// The six lines of it.
    fn lines(&self, alloc: Global) -> Result<Octets, Memory>
        ensures { IfOk result (λ lines. lines ≡ outcome_lines self.now) }
    {
        let mut lines = Octets::new(alloc);
        add_line(alloc, &mut lines, "slices", u64::from(self.slices))?;
        add_line(alloc, &mut lines, "bytes", self.bytes)?;
        add_line(alloc, &mut lines, "packets", u64::from(self.packets))?;
        add_line(alloc, &mut lines, "repeats", u64::from(self.packets))?;
        add_line(alloc, &mut lines, "worst", u64::from(self.found.worst))?;
        add_line(alloc, &mut lines, "sum", self.found.sum)?;
        Ok(lines)
    }
}

/// Appends a line of a word and a number.
fn add_line(alloc: Global, lines: &mut Octets, word: &str, number: u64) -> Result<(), Memory>
    ensures { OnOk result (lines.new ≡ lines.old ++ number_line word.now number) }
{
    match format!(in alloc; "{word} {number}\n") {
        Ok(line) => lines.extend(line.as_bytes()),
        Err(_) => Err(Memory),
    }
}

/// What the picture of a trial is encoded, sent and received with.
#[derive(Drop)]
pub(crate) struct Trial<'a, T, G> {
    pub threads: &'a T,
    pub alloc: Global,
    pub gate: &'a G,
    pub settings: &'a Checked,
}

impl<'a, T: Threads + Sync, G: Gate> Trial<'a, T, G> {
    /// Makes the picture of a seed, encodes, sends and receives it, and writes what that came to as one piece.
    pub fn run<W: Sink>(&self, seed: u32, output: &mut W) -> Result<u8, Stop>
        requires boxes { self.now.settings.now.boxes ≡ [] }
        requires chunk { self.now.settings.now.chunk < 2 ^ 11 }
        ensures { HasTried self.now.settings.now seed (change_of (W.held output.old) (W.held output.new) (W.faults output.old) (W.faults output.new)) result }
    {
        known_range(self.settings);
        let lines = self.lines_of(seed)?;
        match give(output, lines.as_slice()) {
            Ok(()) => Ok(DONE),
            Err(why) => Err(why),
        }
    }

    /// What is written of the picture of a seed.
    fn lines_of(&self, seed: u32) -> Result<Octets, Stop>
        requires { IsTrialSized self.now.settings.now }
        ensures { IsLinesOf self.now.settings.now seed result }
    {
        let shape = &self.settings.settings().shape;
        let (picture, state) = trial_picture(self.alloc, shape, seed)?;
        let stream = self.stream_of(&picture)?;
        let outcome = self.send(&picture, &stream, state)?;
        let lines = outcome.lines(self.alloc)?;
        Ok(lines)
    }

    /// The codestream of a picture.
    fn stream_of(&self, picture: &Planes) -> Result<Stream, Stop>
        requires { picture.now.shape ≡ self.now.settings.now.shape }
        ensures { IsEncodedOr self.now.settings.now picture.now result }
    {
        match encode_threaded(self.threads, self.alloc, picture, self.settings, self.gate) {
            Ok(encoded) => Ok(encoded.stream),
            Err(SliceRefusal::Budget(budget)) => Err(Stop::Told(Note::Budget {
                picture: 0,
                slice: budget.slice,
                size: budget.size,
                share: budget.share,
            })),
            Err(SliceRefusal::Memory) => Err(Stop::Memory),
        }
    }

    /// Sends the packets of a codestream twice, in the order that the generator's state gives, and compares what is received
    /// with its picture.
    fn send(&self, picture: &Planes, stream: &Stream, state: u64) -> Result<TrialOutcome, Memory>
        requires sized { IsTrialSized self.now.settings.now }
        requires shape { picture.now.shape ≡ self.now.settings.now.shape }
        requires encoded { encoding_of self.now.settings.now picture.now ≡ Ok stream.now }
        ensures { IfOk result (IsTrialOutcome self.now.settings.now picture.now stream.now) }
    {
        let asked = self.settings.settings();
        known_words(asked.ssrc);
        let packets = pack(self.alloc, stream, self.settings, 0, 0)?;
        let parts = deal(self.alloc, &packets, state, u32::from(asked.feeders))?;
        let decoded = picture_of(receive_picture(
            self.threads,
            self.alloc,
            parts,
            u32::from(asked.workers),
            self.gate,
        )?);
        let bytes = stream.bytes(self.alloc)?;
        Ok(TrialOutcome {
            slices: stream.len(),
            bytes: bytes.len() as u64,
            packets: packets.len(),
            found: compare(picture, &decoded),
        })
    }
}

// What is true of settings that were checked.
fn known_range(settings: &Checked)
    ensures { AreInRange settings.now }
{
    let _settings = settings.settings();
}

// A number of 32 bits.
fn known_words(number: u32)
    ensures { number < 2 ^ 32 }
{
    let _number = number;
}

/// The picture that was received.
fn picture_of(reception: Reception) -> Planes
    requires { (picture : Picture) × (reception.received ≡ Received.Picture picture) }
    ensures { reception.received ≡ Received.Picture result }
{
    let Reception {
        received,
        board,
        stripes,
    } = reception;
    drop(board);
    drop(stripes);
    match received {
        Received::Picture(planes) => planes,
        Received::Missing { .. } | Received::Damaged(_) => unreachable!(),
    }
}

/// The packets, each of them twice, in the order that the generator's state gives; they go to the feeders in turn.
fn deal(alloc: Global, packets: &Datagrams, state: u64, feeders: u32) -> Result<Parts, Memory>
    requires few { length packets.now < 2 ^ 31 }
    requires offers { AreOffered packets.now }
    requires some { 1 ≤ feeders }
    requires most { feeders ≤ 8 }
    ensures { IfOk result (λ parts. parts ≡ dealt_parts feeders (offers_of (in_order packets.now (shuffle_of (length packets.now) state)))) }
{
    let order = shuffle(alloc, packets.len(), state)?;
    let numbers = order.as_slice();
    let mut parts = Parts::new(alloc, feeders)?;
    'sending: for entry in 0..numbers.len() {
        let packet = offer_in(alloc, packets.get(numbers[entry]))?;
        parts.add((entry % feeders as usize) as u32, packet)?;
    }
    Ok(parts)
}

/// The offer that a packet is.
fn offer_in(alloc: Global, packet: &[u8]) -> Result<Packet, Memory>
    requires { IsSome (offer_of packet.now) }
    ensures { IfOk result (λ p. offer_of packet.now ≡ Some p) }
{
    match offer(alloc, packet)? {
        Some(packet) => Ok(packet),
        None => unreachable!(),
    }
}

/// Each trial has an answer.
#[tactic(auto, using(crate::proofs::TrialAnswers::trials_answered))]
pub fn trials_answered()
    ensures { TrialsAnswered }
{}

/// It has one, whatever the numbers of workers and feeders are.
#[tactic(auto, using(crate::proofs::TrialAnswers::one_trial))]
pub fn one_trial()
    ensures { OneTrial }
{}
