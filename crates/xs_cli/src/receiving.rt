// The pictures of a capture are received: 'Runs' and 'RTP packets and captures'.
ghost use Rattle.std.specs.Prelude.{◌≡◌, ◌+◌, ◌<◌, ◌≤◌, ◌^◌, ℕ, Ok, OnOk, IfErr, IfOk, length, map, if◌then◌else◌, nat_eq};
ghost use Rattle.xs_params.specs.Picture.{raw_bytes};
ghost use Rattle.xs_capture.specs.Pictures.{offers_in, without_offers};
ghost use Rattle.xs_notes.specs.Lines.{NamesFault, note_line, note_lines};
ghost use Rattle.xs_endings.specs.Ends.{IsLater, change_of};
ghost use Rattle.xs_endings.specs.Said.{note_status};
ghost use Rattle.xs_endings.specs.Steps.{IsGiven};
ghost use Rattle.xs_recv.specs.Received.{offered_bytes};
ghost use Rattle.xs_cli.specs.Captured.{IsReceivedOf, IsSaidOfSorted, damage_note, said_of, stepped_said, with_stepped};
ghost use Rattle.xs_cli.specs.Receiving.{AreReceived, AreUnwrapped, HasSaid, IsNamed, IsOfBytes, IsSaying, stop_of_file, stop_of_sort};
ghost use Rattle.xs_cli.specs.Decoded.{input_limit};
ghost use Rattle.xs_cli.specs.Steps.{IsCommandStop};

use crate::input::DONE;
use crate::raw_output::write_raw;
use std::alloc::Global;
use std::thread::Threads;
use xs_capture::{SortFault, Sorted, sort_pictures};
use xs_endings::{Stop, note_status, tell};
use xs_io::{Gate, Numbers, Octets, Sink};
use xs_notes::Note;
use xs_params::Planes;
use xs_pcap::{PcapFault, Unwrapped, unwrap};
use xs_recv::{Damage, Received, receive_picture};

/// Packets are missing.
const MISSING: u8 = 5;

/// How many receive: so many workers, to which so many feeders, from 1 to 8, give the packets.
#[derive(Clone, Copy)]
pub struct Crew {
    pub workers: u32,
    pub feeders: u32,
}

/// What each picture of a capture is received with.
#[derive(Drop)]
pub struct Receiver<'a, T, G> {
    pub threads: &'a T,
    pub alloc: Global,
    pub gate: &'a G,
    pub crew: Crew,
}

impl<'a, T: Threads + Sync, G: Gate> Receiver<'a, T, G> {
    /// Unwraps a pcap file, which is given up then, and receives the pictures of the capture of its datagrams to a port.
    pub fn receive_file<W: Sink, N: Sink>(
        &self,
        bytes: Octets,
        port: u16,
        output: &mut W,
        notes: &mut N,
    ) -> Result<u8, Stop>
        requires short { length bytes ≤ input_limit }
        requires some { 1 ≤ self.now.crew.feeders }
        requires few { self.now.crew.feeders ≤ 8 }
        ensures received { AreUnwrapped port bytes (change_of (W.held output.old) (W.held output.new) (W.faults output.old) (W.faults output.new)) (change_of (N.held notes.old) (N.held notes.new) (N.faults notes.old) (N.faults notes.new)) result }
        ensures stop { IsCommandStop result }
        ensures notes_later { IsLater (change_of (N.held notes.old) (N.held notes.new) (N.faults notes.old) (N.faults notes.new)) }
    {
        match unwrap(self.alloc, bytes.as_slice(), port) {
            Ok(Unwrapped { capture, stepped }) => {
                drop(bytes);
                self.receive(capture, stepped, output, notes)
            }
            Err(fault) => Err(file_refusal(fault)),
        }
    }

    /// Receives the pictures of a capture, one after the other by their timestamps, and says what comes of each before the next
    /// is received: its raw picture, or what is missing of it or damaged. Goes on after those. Answers the first status that is
    /// not 0, or else 0. The bytes are copied once and given up then, and each picture's packets go with it. So many records were
    /// stepped over before, and count as frames.
    pub fn receive<W: Sink, N: Sink>(
        &self,
        bytes: Octets,
        records: u32,
        output: &mut W,
        notes: &mut N,
    ) -> Result<u8, Stop>
        requires short { length bytes + records < 2 ^ 32 }
        requires some { 1 ≤ self.now.crew.feeders }
        requires few { self.now.crew.feeders ≤ 8 }
        ensures received { AreReceived records bytes (change_of (W.held output.old) (W.held output.new) (W.faults output.old) (W.faults output.new)) (change_of (N.held notes.old) (N.held notes.new) (N.faults notes.old) (N.faults notes.new)) result }
        ensures stop { IsCommandStop result }
        ensures output_later { IsLater (change_of (W.held output.old) (W.held output.new) (W.faults output.old) (W.faults output.new)) }
        ensures notes_later { IsLater (change_of (N.held notes.old) (N.held notes.new) (N.faults notes.old) (N.faults notes.new)) }
    {
        match sort_pictures(self.alloc, bytes.as_slice()) {
            Ok(sorted) => {
                drop(bytes);
                let stepped = sorted.stepped() + records;
                self.pictures(sorted, stepped, output, notes)
            }
            Err(fault) => Err(refusal(fault)),
        }
    }

    /// Receives pictures that are sorted, and says what comes of each, after how many frames and records were stepped over.
    fn pictures<W: Sink, N: Sink>(
        &self,
        sorted: Sorted,
        stepped: u32,
        output: &mut W,
        notes: &mut N,
    ) -> Result<u8, Stop>
        requires sorted { IsOfBytes sorted }
        requires some { 1 ≤ self.now.crew.feeders }
        requires few { self.now.crew.feeders ≤ 8 }
        ensures { HasSaid (IsSaidOfSorted (Ok (with_stepped sorted stepped))) (change_of (W.held output.old) (W.held output.new) (W.faults output.old) (W.faults output.new)) (change_of (N.held notes.old) (N.held notes.new) (N.faults notes.old) (N.faults notes.new)) result }
    {
        let mut sorted = sorted;
        tell_stepped(self.alloc, stepped, notes)?;
        let mut status = DONE;
        'pictures: for number in 0..sorted.count() {
            let received = self.picture(&mut sorted, number)?;
            let more = self.say(sorted.timestamp(number), &received, output, notes)?;
            status = first_status(status, more);
        }
        Ok(status)
    }

    /// Receives a picture, whose packets are given up with it.
    fn picture(&self, sorted: &mut Sorted, number: u32) -> Result<Received, Stop>
        requires number { number < length sorted.old.timestamps }
        requires small { offered_bytes (offers_in sorted.old number) < 2 ^ 32 }
        requires some { 1 ≤ self.now.crew.feeders }
        requires few { self.now.crew.feeders ≤ 8 }
        ensures received { IfOk result (IsReceivedOf (offers_in sorted.old number)) }
        ensures named { IfOk result IsNamed }
        ensures left { OnOk result (sorted.new ≡ without_offers sorted.old number) }
        ensures memory { IfErr result (λ why. why ≡ Stop.Memory) }
    {
        let parts = sorted.parts(number, self.crew.feeders)?;
        match receive_picture(
            self.threads,
            self.alloc,
            parts,
            self.crew.workers,
            self.gate,
        ) {
            Ok(reception) => Ok(reception.received),
            Err(_) => Err(Stop::Memory),
        }
    }

    /// Says what is received of a picture, and answers its status.
    fn say<W: Sink, N: Sink>(
        &self,
        timestamp: u32,
        received: &Received,
        output: &mut W,
        notes: &mut N,
    ) -> Result<u8, Stop>
        requires { IsNamed received.now }
        ensures { IsSaying (change_of (W.held output.old) (W.held output.new) (W.faults output.old) (W.faults output.new)) (change_of (N.held notes.old) (N.held notes.new) (N.faults notes.old) (N.faults notes.new)) (said_of timestamp received.now) result }
    {
        match received {
            Received::Picture(planes) => write(self.alloc, planes, output),
            Received::Missing { header: true, .. } => {
                tell_one(
                    self.alloc,
                    &Note::MissingHeader { picture: timestamp },
                    notes,
                )
            }
            Received::Missing {
                header: false,
                slices,
            } => tell_slices(self.alloc, timestamp, slices, notes),
            Received::Damaged(damage) => tell_one(
                self.alloc,
                &damage_note(timestamp, *damage),
                notes,
            ),
        }
    }
}

/// How a capture is refused as a whole.
fn refusal(fault: SortFault) -> Stop
    ensures { result ≡ stop_of_sort fault }
{
    match fault {
        SortFault::Cut { place } => Stop::Told(Note::InputCut {
            place: place as u64,
        }),
        SortFault::Pictures { count } => Stop::Told(Note::InputPictures { count }),
        SortFault::Memory => Stop::Memory,
    }
}

/// How a pcap file is refused.
fn file_refusal(fault: PcapFault) -> Stop
    ensures { result ≡ stop_of_file fault }
{
    match fault {
        PcapFault::Cut { place } => Stop::Told(Note::InputCut {
            place: place as u64,
        }),
        PcapFault::Magic { value } => Stop::Told(Note::InputMagic { value }),
        PcapFault::Link { value } => Stop::Told(Note::InputLink { value }),
        PcapFault::Memory => Stop::Memory,
    }
}

/// The first status that is not 0, or else 0.
fn first_status(status: u8, more: u8) -> u8
    ensures { result ≡ (if nat_eq status 0 then more else status) }
{
    if status == 0 { more } else { status }
}

/// Tells how many frames and records were stepped over, if there are any.
fn tell_stepped<N: Sink>(alloc: Global, count: u32, notes: &mut N) -> Result<(), Stop>
    ensures { IsGiven (change_of (N.held notes.old) (N.held notes.new) (N.faults notes.old) (N.faults notes.new)) (note_lines (stepped_said count).notes) result }
{
    if count == 0 {
        return Ok(());
    }
    tell(alloc, notes, &Note::Stepped { count })
}

/// Writes a raw picture.
fn write<W: Sink>(alloc: Global, planes: &Planes, output: &mut W) -> Result<u8, Stop>
    ensures given { IsGiven (change_of (W.held output.old) (W.held output.new) (W.faults output.old) (W.faults output.new)) (raw_bytes planes.now) result }
    ensures done { IfOk result (λ status. status ≡ 0) }
{
    match write_raw(alloc, planes, output) {
        Ok(()) => Ok(DONE),
        Err(why) => Err(why),
    }
}

/// Tells a note, and answers its status.
fn tell_one<N: Sink>(alloc: Global, note: &Note, notes: &mut N) -> Result<u8, Stop>
    requires { NamesFault note.now }
    ensures given { IsGiven (change_of (N.held notes.old) (N.held notes.new) (N.faults notes.old) (N.faults notes.new)) (note_line note.now) result }
    ensures status { IfOk result (λ status. status ≡ note_status note.now) }
{
    match tell(alloc, notes, note) {
        Ok(()) => Ok(note_status(note)),
        Err(why) => Err(why),
    }
}

/// Tells that slices are missing, each in a note of its own.
fn tell_slices<N: Sink>(
    alloc: Global,
    timestamp: u32,
    slices: &Numbers,
    notes: &mut N,
) -> Result<u8, Stop>
    ensures given { IsGiven (change_of (N.held notes.old) (N.held notes.new) (N.faults notes.old) (N.faults notes.new)) (note_lines (map (Note.MissingSlice timestamp) slices.now)) result }
    ensures status { IfOk result (λ status. status ≡ 5) }
{
    'telling: for slice in slices.as_slice() {
        tell(
            alloc,
            notes,
            &Note::MissingSlice {
                picture: timestamp,
                slice: *slice,
            },
        )?;
    }
    Ok(MISSING)
}

/// The note on a damage.
fn damage_note(timestamp: u32, damage: Damage) -> Note
    ensures { result ≡ damage_note timestamp damage }
{
    match damage {
        Damage::Head(fault) => Note::DamagedHeader {
            picture: timestamp,
            fault,
        },
        Damage::Slice { slice, fault } => Note::DamagedSlice {
            picture: timestamp,
            slice,
            fault,
        },
        Damage::Lcod { stated, length } => Note::DamagedLength {
            picture: timestamp,
            stated,
            actual: length,
        },
    }
}
