ghost use Rattle.std.specs.Prelude.{◌≡◌};
ghost use Rattle.oi_scsi.specs.Sense.{sense_in};

/// The sense data of a SCSI Response's data segment: a length of two bytes, then so many bytes, or those that are there.
pub fn sense_of(payload: &[u8]) -> &[u8]
    ensures { result.now ≡ sense_in payload.now }
{
    match payload {
        [high, low, rest @ ..] => {
            let stated = 256 * *high as usize + *low as usize;
            &rest[..stated.min(rest.len())]
        }
        _ => &[],
    }
}
