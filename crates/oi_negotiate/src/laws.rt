ghost use Rattle.std.specs.Prelude.{◌≡◌, ◌≤◌, ◌||◌, ◌&&◌, ℕ, Bool, Some, None, List, min, max};
ghost use Rattle.oi_text.specs.declared.pairs.Pair.{Pair};
ghost use Rattle.oi_negotiate.specs.Negotiated.{word_answer, number_answer, negotiated_word, negotiated_number, negotiated};
ghost use Rattle.oi_negotiate.specs.Rows.{word_row, number_row};
ghost use Rattle.oi_negotiate.specs.declared.keys.WordKey.{WordKey};
ghost use Rattle.oi_negotiate.specs.declared.keys.NumberKey.{NumberKey};
ghost use Rattle.oi_negotiate.specs.declared.keys.WordKey.TheVariants.{InitialR2T, ImmediateData};
ghost use Rattle.oi_negotiate.specs.declared.keys.NumberKey.TheVariants.{MaxBurstLength, FirstBurstLength, DefaultTime2Wait, DefaultTime2Retain, MaxOutstandingR2T, MaxRecvDataSegmentLength};
ghost use Rattle.oi_negotiate.specs.declared.offer.Offer.{Offer};

/// What a key settles to where the other side answers it: the `or`, the `and`, the least or the greatest of both values, and
/// the other side's own length.
pub fn answered_keys_settle()
    ensures or { (ours theirs : Bool) (pairs : List Pair) → word_answer InitialR2T pairs ≡ Some theirs → negotiated_word InitialR2T ours pairs ≡ (ours || theirs) }
    ensures and { (ours theirs : Bool) (pairs : List Pair) → word_answer ImmediateData pairs ≡ Some theirs → negotiated_word ImmediateData ours pairs ≡ (ours && theirs) }
    ensures burst { (ours theirs : ℕ) (pairs : List Pair) → number_answer MaxBurstLength pairs ≡ Some theirs → negotiated_number MaxBurstLength ours pairs ≡ min ours theirs }
    ensures first_burst { (ours theirs : ℕ) (pairs : List Pair) → number_answer FirstBurstLength pairs ≡ Some theirs → negotiated_number FirstBurstLength ours pairs ≡ min ours theirs }
    ensures wait { (ours theirs : ℕ) (pairs : List Pair) → number_answer DefaultTime2Wait pairs ≡ Some theirs → negotiated_number DefaultTime2Wait ours pairs ≡ max ours theirs }
    ensures retain { (ours theirs : ℕ) (pairs : List Pair) → number_answer DefaultTime2Retain pairs ≡ Some theirs → negotiated_number DefaultTime2Retain ours pairs ≡ min ours theirs }
    ensures outstanding { (ours theirs : ℕ) (pairs : List Pair) → number_answer MaxOutstandingR2T pairs ≡ Some theirs → negotiated_number MaxOutstandingR2T ours pairs ≡ min ours theirs }
    ensures declared { (ours theirs : ℕ) (pairs : List Pair) → number_answer MaxRecvDataSegmentLength pairs ≡ Some theirs → negotiated_number MaxRecvDataSegmentLength ours pairs ≡ theirs }
{}

/// What a key settles to where the other side does not answer it: the default, whatever was offered. The first burst is never
/// longer than a burst.
pub fn silent_keys_settle()
    ensures words { (k : WordKey) (ours : Bool) (pairs : List Pair) → word_answer k pairs ≡ None → negotiated_word k ours pairs ≡ (word_row k).default }
    ensures numbers { (k : NumberKey) (ours : ℕ) (pairs : List Pair) → number_answer k pairs ≡ None → negotiated_number k ours pairs ≡ (number_row k).default }
    ensures first_burst { (ours : Offer) (pairs : List Pair) → (negotiated ours pairs).first_burst ≤ (negotiated ours pairs).max_burst }
{}
