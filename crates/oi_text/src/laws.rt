ghost use Rattle.std.specs.Prelude.{◌≡◌, ℕ, List, ◌∷◌};
ghost use Rattle.hex.specs.Hex.{encode_lower};
ghost use Rattle.base64.specs.GeneralPurpose.{IsBytes};
ghost use Rattle.oi_text.specs.Binary.{IsBinary};
ghost use Rattle.oi_text.specs.Pairs.{text_of, ArePairs, IsMalformedAt};
ghost use Rattle.oi_text.specs.declared.pairs.Pair.{Pair};

/// A text is one list of pairs at most, and none where it has a piece that is no pair; such a piece has one place. So what was
/// written reads as it was given, and a fault comes exactly where the bytes are no list of pairs.
pub fn pairs_read_back()
    ensures one { (ps qs : List Pair) → ArePairs ps → ArePairs qs → text_of ps ≡ text_of qs → ps ≡ qs }
    ensures well_formed { (ps : List Pair) (at : ℕ) → ArePairs ps → IsMalformedAt (text_of ps) at → ⊥ }
    ensures one_place { (bytes : List ℕ) (at other : ℕ) → IsMalformedAt bytes at → IsMalformedAt bytes other → at ≡ other }
{}

/// What was written as a binary value is that value of the bytes, and a value stands for one list of bytes at most.
pub fn binary_reads_back()
    ensures written { (bytes : List ℕ) → IsBytes bytes → IsBinary (48 ∷ 120 ∷ encode_lower bytes) bytes }
    ensures one { (value bytes others : List ℕ) → IsBinary value bytes → IsBinary value others → bytes ≡ others }
{}
