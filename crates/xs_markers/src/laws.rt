// Laws of headers.
ghost use Rattle.xs_markers.specs.Laws.{HeaderReadAgain, HeaderUnitsKnown, HeadersKnown};

/// Bytes without a fault begin with the header that is read of them, and no bytes with a fault begin with a header.
pub fn headers_known()
    ensures { HeadersKnown }
{}

/// The same of what is sent of a header: boxes, and the header alone.
pub fn header_units_known()
    ensures { HeaderUnitsKnown }
{}

/// What is written of a header is read again, whatever slice follows it.
pub fn header_read_again()
    ensures { HeaderReadAgain }
{}
