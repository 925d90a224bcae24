ghost use Rattle.oi_stream.specs.Bytewise.{FedFollows, FedInARow, FedIsFramed, FedStays, UnfedFollows};
ghost use Rattle.oi_stream.specs.Framing.{OneFraming};
ghost use Rattle.oi_stream.specs.Streams.{FollowedIsFramed};

/// For given bytes and a given limit there is one list of PDUs, one place after them, and one stop.
pub fn one_framing()
    ensures { OneFraming }
{}

/// A splitter that has not ended has handed out the PDUs of the framing of all bytes that it was fed, which stops short.
pub fn followed_is_framed()
    ensures { FollowedIsFramed }
{}

/// A splitter that was fed nothing stands at the front of the stream.
pub fn unfed_follows()
    ensures { UnfedFollows }
{}

/// A piece that is fed byte by byte behind other bytes gives the framing of all of them.
pub fn fed_is_framed()
    ensures { FedIsFramed }
{}

/// A splitter that is fed a piece byte by byte, and is not stopped, stands at the end of all its bytes.
pub fn fed_follows()
    ensures { FedFollows }
{}

/// Bytes change no limit, and the splitter has ended just where something stopped it.
pub fn fed_stays()
    ensures { FedStays }
{}

/// Two pieces in a row are as one, and behind a stop no byte counts.
pub fn fed_in_a_row()
    ensures { FedInARow }
{}
