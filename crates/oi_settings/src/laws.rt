ghost use Rattle.std.specs.Prelude.{◌≡◌, ℕ, List};
ghost use Rattle.std.specs.Cmp.{IsTotalOrder};
ghost use Rattle.std.specs.Str.{IsUtf8};
ghost use Rattle.std.specs.declared.cmp.Ordering.TheVariants.{Equal};
ghost use Rattle.oi_settings.specs.Keys.{IsKey, Key, key_cmp, path_text};
ghost use Rattle.oi_settings.specs.Schema.{fresh_pairs};
ghost use Rattle.oi_settings.specs.Texts.{BadLine, IsNode, IsStored, Node, text_of};

/// Laws of records and their texts. A text stores one record at most, and none where it has a bad line; it has one first
/// bad line. What was read of any text reads the same of the text that is written of it. The function does nothing.
pub fn texts_read_back()
    ensures one { (bytes : List ℕ) (a b : Node) → IsStored bytes a → IsStored bytes b → a ≡ b }
    ensures bad { (bytes : List ℕ) (line : ℕ) (node : Node) → BadLine bytes line → IsStored bytes node → ⊥ }
    ensures one_line { (bytes : List ℕ) (line other : ℕ) → BadLine bytes line → BadLine bytes other → line ≡ other }
    ensures well_formed { (bytes : List ℕ) (node : Node) → IsStored bytes node → IsNode node }
    ensures written { (node : Node) → IsNode node → IsStored (text_of node.pairs) node }
    ensures migration { (bytes : List ℕ) (node : Node) → IsStored bytes node → IsStored (text_of node.pairs) node }
    ensures fresh { (key : Key) → IsKey key → IsNode record { key = key; pairs = fresh_pairs key } }
{}

/// Laws of keys: the order is total and tells any two keys apart, no two keys have one path, and a path is a text. The
/// function does nothing.
pub fn keys_differ()
    ensures total { IsTotalOrder key_cmp }
    ensures apart { (a b : Key) → key_cmp a b ≡ Equal → a ≡ b }
    ensures paths { (a b : Key) → IsKey a → IsKey b → path_text a ≡ path_text b → a ≡ b }
    ensures text { (key : Key) → IsKey key → IsUtf8 (path_text key) }
{}
