ghost use Rattle.oi_pdu.specs.Wire.{EncodedDecodes};

/// Reading takes back what writing gives: the encoding of every PDU that can be encoded decodes to that PDU.
pub fn encoded_decodes()
    ensures { EncodedDecodes }
{}
