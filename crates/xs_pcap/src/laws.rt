// Laws of pcap files.
ghost use Rattle.xs_pcap.specs.Laws.{ChecksumIsGood, DatagramIsRead, NoFaultInFile, RecordsAreOne, UnwrappedIsOne, WrappedIsUnwrapped};

/// Captured bytes are read as a datagram exactly where they are one.
#[tactic(auto, using(crate::proofs::Datagrams::datagram_is_read))]
pub fn datagram_is_read()
    ensures { DatagramIsRead }
{}

/// Bytes have no fault exactly where they are a file.
#[tactic(auto, using(crate::proofs::Files::no_fault_in_file))]
pub fn no_fault_in_file()
    ensures { NoFaultInFile }
{}

/// A file has one list of records.
#[tactic(auto, using(crate::proofs::Files::records_are_one))]
pub fn records_are_one()
    ensures { RecordsAreOne }
{}

/// Bytes without a fault are unwrapped to one capture, with one number of records stepped over.
#[tactic(auto, using(crate::proofs::OneCapture::unwrapped_is_one))]
pub fn unwrapped_is_one()
    ensures { UnwrappedIsOne }
{}

/// What is wrapped is unwrapped to the capture of its packets, with nothing stepped over.
#[tactic(auto, using(crate::proofs::Again::wrapped_is_unwrapped))]
pub fn wrapped_is_unwrapped()
    ensures { WrappedIsUnwrapped }
{}

/// A header that is written has a good checksum.
#[tactic(auto, using(crate::proofs::Checksums::checksum_is_good))]
pub fn checksum_is_good()
    ensures { ChecksumIsGood }
{}
