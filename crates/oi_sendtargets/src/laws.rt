ghost use Rattle.std.specs.Prelude.{◌≡◌, ℕ, List};
ghost use Rattle.oi_names.specs.declared.portal.Portal.{Portal};
ghost use Rattle.oi_sendtargets.specs.declared.found.Found.{Found};
ghost use Rattle.oi_sendtargets.specs.Payloads.{IsBadAt, payload_of};
ghost use Rattle.oi_sendtargets.specs.Listings.{AreReadable, IsFound, targets_of};

/// A payload tells one list of portals at most, and none where it has a piece that cannot stand where it does; such a piece has
/// one place. So a fault comes exactly where the payload is no list of targets, and what was written reads as it was given.
pub fn targets_read_back()
    ensures one { (payload : List ℕ) (asked : Portal) (found others : List Found)
        → IsFound payload asked found → IsFound payload asked others → found ≡ others }
    ensures well_formed { (payload : List ℕ) (asked : Portal) (found : List Found) (at : ℕ)
        → IsFound payload asked found → IsBadAt payload at → ⊥ }
    ensures one_place { (payload : List ℕ) (at other : ℕ) → IsBadAt payload at → IsBadAt payload other → at ≡ other }
    ensures written { (found : List Found) (asked : Portal) → AreReadable found → IsFound (payload_of (targets_of found)) asked found }
{}
