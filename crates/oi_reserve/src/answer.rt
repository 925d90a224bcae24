/// What a reservation command is answered: GOOD, RESERVATION CONFLICT (status 18), or CHECK CONDITION for an illegal
/// request with this additional sense code.
#[derive(Clone, Copy, Debug, PartialEq, Eq)]
pub enum ReserveAnswer {
    Good,
    Conflict,
    Check { asc: u8 },
}
