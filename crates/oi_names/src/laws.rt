ghost use Rattle.std.specs.Prelude.{◌≡◌, ◌≤◌, ℕ, List, Option, None};
ghost use Rattle.oi_names.specs.Portals.{IsAddress, IsPortal, IsPortalOf, lower_case, portal_text};

/// Laws of the texts of portals: each word of the grammar has one reading, and what is written of it reads as it was
/// given. The function does nothing.
pub fn portal_texts_read_once()
    ensures word { (text address : List ℕ) (port : ℕ) (tag : Option ℕ) → IsPortalOf address port tag text → IsPortal text }
    ensures reading { (text : List ℕ) → IsPortal text
        → (address : List ℕ) × (port : ℕ) × (tag : Option ℕ) × IsPortalOf address port tag text }
    ensures once { (text a b : List ℕ) (p q : ℕ) (t u : Option ℕ) → IsPortalOf a p t text → IsPortalOf b q u text
        → (a ≡ b) × (p ≡ q) × (t ≡ u) }
    ensures written { (address : List ℕ) (port : ℕ) → IsAddress address → lower_case address ≡ address → 1 ≤ port → port ≤ 65535
        → IsPortalOf address port None (portal_text address port) }
    ensures again { (text address : List ℕ) (port : ℕ) (tag : Option ℕ) → IsPortalOf address port tag text
        → IsPortalOf address port None (portal_text address port) }
{}
