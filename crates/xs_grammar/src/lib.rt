//! The grammar of the codestream of ISO/IEC 21122-1, from the header to the codestream: definitions, and laws that hold
//! of them.
#![tactic(auto)]

ghost use Rattle.xs_grammar.specs.Laws.{OneCodestream, OneHeader, OnePacket, OneSlice, PrecinctIsLocal, SliceIsLocal, SliceReadAgain, WrittenBytes, WrittenCodestream, WrittenHeader, WrittenSlice};
ghost use Rattle.xs_grammar.specs.Sizes.{SizeOfSlice};

/// The bytes of a packet are of one set of lines, by what is known before, whatever follows them.
pub fn one_packet()
    ensures { OnePacket }
{}

/// The bytes of a slice are of one content, whatever follows them.
pub fn one_slice()
    ensures { OneSlice }
{}

/// A precinct speaks of its own part of the content, and of what stands before it in its slice.
#[tactic(auto, using(crate::proofs::Local::precinct_is_local))]
pub fn precinct_is_local()
    ensures { PrecinctIsLocal }
{}

/// A slice speaks of its own part of the content alone.
pub fn slice_is_local()
    ensures { SliceIsLocal }
{}

/// Bytes are of one header.
pub fn one_header()
    ensures { OneHeader }
{}

/// Bytes are of one codestream.
pub fn one_codestream()
    ensures { OneCodestream }
{}

/// What is written of a slice is a slice of its content.
pub fn written_slice()
    ensures { WrittenSlice }
{}

/// What is written of a header is a header of it.
pub fn written_header()
    ensures { WrittenHeader }
{}

/// What is written of a codestream is one of its header and its content.
pub fn written_codestream()
    ensures { WrittenCodestream }
{}

/// What is written are bytes.
pub fn written_bytes()
    ensures { WrittenBytes }
{}

/// What was written of a slice is read again, whatever follows it.
pub fn slice_read_again()
    ensures { SliceReadAgain }
{}

/// The size of a slice is that of what is written of it.
pub fn size_of_slice()
    ensures { SizeOfSlice }
{}
