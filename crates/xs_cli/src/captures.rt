// Laws of what is said of a capture.
ghost use Rattle.xs_cli.specs.CapturedLaws.{CapturesAnswered, FileIsWritten, OneCaptured, OneFile, SentIsWritten};

/// Each input of bytes has an answer in rtp form.
pub fn captures_answered()
    ensures { CapturesAnswered }
{}

/// Where the offers agree, it hangs on which there are and on how many packets are none.
pub fn one_captured()
    ensures { OneCaptured }
{}

/// The same of pcap files, where the records that are stepped over count as packets that are none.
pub fn one_file()
    ensures { OneFile }
{}

/// Where exactly the packets of pictures arrive, in any order, each as often as one likes, the pictures are written.
pub fn sent_is_written()
    ensures { SentIsWritten }
{}

/// The same of a pcap file of exactly these packets, which is asked for its port or for any.
pub fn file_is_written()
    ensures { FileIsWritten }
{}
