// Codestreams become raw pictures, one after the other, or a capture does: 'Runs'.
ghost use Rattle.std.specs.Prelude.{◌≡◌, ◌≢◌, ◌+◌, ◌<◌, ◌≤◌, ◌^◌, ℕ, None, Some, IfErr, length, []};
ghost use Rattle.xs_capture.specs.Pictures.{most_pictures};
ghost use Rattle.xs_io.specs.Bytes.{AreByteItems};
ghost use Rattle.xs_endings.specs.Ends.{IsLater, change_of, ends_of};
ghost use Rattle.xs_endings.specs.Steps.{IsGiven};
ghost use Rattle.xs_params.specs.Picture.{raw_bytes};
ghost use Rattle.xs_markers.specs.Reading.{head_fault};
ghost use Rattle.xs_picture.specs.Faults.{stream_fault};
ghost use Rattle.xs_words.specs.declared.command.Command.TheVariants as Commands;
ghost use Rattle.xs_cli.specs.Decoded.{input_limit};
ghost use Rattle.xs_cli.specs.Steps.{AreStreamsDecoded, IsBadEnd, IsCommandStop, IsDone, IsNext, IsOwnNote, IsTold};

use crate::input::{DONE, MOST_PICTURES};
use crate::raw_output::write_raw;
use crate::receiving::Receiver;
use std::alloc::Global;
use std::thread::Threads;
use xs_endings::Stop;
use xs_faults::{HeadFault, SliceFault, StreamFault};
use xs_io::{Gate, Memory, Octets, Sink, Source, TakeFault, take_all};
use xs_notes::Note;
use xs_picture::{decode_picture, last_slice};
use xs_words::Form;

/// The most bytes that an input of decoding may have.
const INPUT_LIMIT: u64 = 1 << 30;

/// How the input is decoded: in which form it comes, and what the pictures of a capture are received with.
#[derive(Drop)]
pub struct Decoder<'a, T, G> {
    pub form: Form,
    pub receiver: Receiver<'a, T, G>,
}

impl<'a, T: Threads + Sync, G: Gate> Decoder<'a, T, G> {
    /// Reads the whole input, and decodes the codestreams in it or receives the pictures of the capture or pcap file that it is. Past its
    /// limit one byte is taken.
    pub fn decode<R: Source, W: Sink, N: Sink>(
        &self,
        input: &mut R,
        output: &mut W,
        notes: &mut N,
    ) -> Result<u8, Stop>
        requires some { 1 ≤ self.now.receiver.crew.feeders }
        requires few { self.now.receiver.crew.feeders ≤ 8 }
        ensures { IsDone (Commands.Decode self.now.form self.now.receiver.crew.workers self.now.receiver.crew.feeders) (ends_of
            (change_of (R.left input.old) (R.left input.new) (R.faults input.old) (R.faults input.new))
            (change_of (W.held output.old) (W.held output.new) (W.faults output.old) (W.faults output.new))
            (change_of (N.held notes.old) (N.held notes.new) (N.faults notes.old) (N.faults notes.new))) result }
    {
        let alloc = self.receiver.alloc;
        match take_all(alloc, input, INPUT_LIMIT) {
            Ok(bytes) => {
                known_bytes(&bytes);
                match self.form {
                    Form::Xs => streams(alloc, bytes.as_slice(), output),
                    Form::Rtp => self.receiver.receive(bytes, 0, output, notes),
                    Form::Pcap { port } => self.receiver.receive_file(bytes, port, output, notes),
                }
            }
            Err(TakeFault::Limit) => Err(Stop::Told(Note::InputLimit { limit: INPUT_LIMIT })),
            Err(TakeFault::Failed) => Err(Stop::ReadFault),
            Err(TakeFault::Memory) => Err(Stop::Memory),
        }
    }
}

// What the type of bytes says of them.
fn known_bytes(bytes: &Octets)
    ensures { AreByteItems bytes.now }
{
    let _items = bytes.as_slice();
}

/// Decodes codestreams one after the other, and writes each picture as it comes.
fn streams<W: Sink>(alloc: Global, bytes: &[u8], output: &mut W) -> Result<u8, Stop>
    requires { length bytes.now ≤ input_limit }
    ensures decoded { AreStreamsDecoded bytes.now (change_of (W.held output.old) (W.held output.new) (W.faults output.old) (W.faults output.new)) result }
    ensures stop { IsCommandStop result }
{
    let mut place = 0;
    'streams: for picture in 0..MOST_PICTURES {
        if place == bytes.len() {
            return Ok(DONE);
        }
        place += next(alloc, picture, place, &bytes[place..], output)?;
    }
    if place == bytes.len() {
        return Ok(DONE);
    }
    Err(Stop::Told(Note::InputPictures {
        count: MOST_PICTURES + 1,
    }))
}

/// Decodes the codestream that stands next and writes its picture; answers how many bytes it has.
fn next<W: Sink>(
    alloc: Global,
    picture: u32,
    place: usize,
    rest: &[u8],
    output: &mut W,
) -> Result<usize, Stop>
    requires few { picture < most_pictures }
    requires some { rest.now ≢ [] }
    requires within { place + length rest.now ≤ input_limit }
    ensures next { (sequence : ℕ) → IsNext (record { pictures = picture; bytes = place; sequence = sequence }) rest.now (change_of (W.held output.old) (W.held output.new) (W.faults output.old) (W.faults output.new)) result }
    ensures own { IfErr result IsOwnNote }
    ensures later { IsLater (change_of (W.held output.old) (W.held output.new) (W.faults output.old) (W.faults output.new)) }
{
    match decode_picture(alloc, rest) {
        Ok((planes, size)) => match write_raw(alloc, &planes, output) {
            Ok(()) => Ok(size),
            Err(why) => Err(why),
        },
        Err(fault) => Err(refusal(alloc, picture, place, rest, fault)),
    }
}

/// How it is told that no codestream stands next.
fn refusal(alloc: Global, picture: u32, place: usize, rest: &[u8], fault: StreamFault) -> Stop
    requires few { picture < most_pictures }
    requires some { rest.now ≢ [] }
    requires within { place + length rest.now ≤ input_limit }
    requires fault { fault ≢ StreamFault.Memory → stream_fault rest.now ≡ Some fault }
    ensures told { (sequence : ℕ) → IsTold (record { pictures = picture; bytes = place; sequence = sequence }) rest.now result }
    ensures own { IsOwnNote result }
{
    match fault {
        StreamFault::Cut { .. } => Stop::Told(Note::InputCut {
            place: (place + rest.len()) as u64,
        }),
        StreamFault::Head(fault) => Stop::Told(Note::DamagedHeader { picture, fault }),
        StreamFault::Slice { slice, fault } => Stop::Told(Note::DamagedSlice {
            picture,
            slice,
            fault,
        }),
        StreamFault::End { .. } => bad_end(alloc, picture, rest),
        StreamFault::Lcod { stated, length } => Stop::Told(Note::DamagedLength {
            picture,
            stated,
            actual: length,
        }),
        StreamFault::Memory => Stop::Memory,
    }
}

/// How it is told that the end marker is not there. It names the last slice.
fn bad_end(alloc: Global, picture: u32, rest: &[u8]) -> Stop
    requires few { length rest.now ≤ input_limit }
    requires headed { head_fault rest.now ≡ None }
    ensures { IsBadEnd picture rest.now result }
{
    match last_slice(alloc, rest) {
        Ok(slice) => Stop::Told(Note::DamagedSlice {
            picture,
            slice,
            fault: SliceFault::End,
        }),
        Err(Memory) => Stop::Memory,
    }
}
