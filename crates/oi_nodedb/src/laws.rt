ghost use Rattle.std.specs.Prelude.{◌≡◌, ℕ, Bool, List, Option, Some, None, Ok};
ghost use Rattle.std.specs.List.{All};
ghost use Rattle.oi_names.specs.declared.session_key.SessionInfo.{SessionInfo};
ghost use Rattle.oi_outside.specs.Records.{Records};
ghost use Rattle.oi_outside.specs.Stores.{IsToldAt, told_at};
ghost use Rattle.oi_settings.specs.Keys.{IsKey, path_text};
ghost use Rattle.oi_settings.specs.Texts.{IsNode, Node, text_of};
ghost use Rattle.oi_nodedb.specs.declared.filter.Filter.{Filter};
ghost use Rattle.oi_nodedb.specs.Answers.{Adds, Deletes, Updates};
ghost use Rattle.oi_nodedb.specs.Databases.{Ascends, told_removed, told_texts};
ghost use Rattle.oi_nodedb.specs.Loads.{IsLoaded};

/// Laws of a store beside the records. Where the texts of records in order were put, each has its text at its path, and
/// every other path is as before; the same where they were taken away. A store whose records were those of the list has
/// those of the new list after each accepted call. The function does nothing.
pub fn stores_follow()
    ensures put { (nodes : List Node) (o : Option Records) → Ascends nodes → All (λ n. IsKey n.key) nodes
        → All (λ n. IsToldAt (told_texts o nodes) (path_text n.key) (Some (text_of n.pairs))) nodes }
    ensures put_elsewhere { (path : List ℕ) (nodes : List Node) (o : Option Records) → All (λ n. path ≡ path_text n.key → ⊥) nodes
        → told_at (told_texts o nodes) path ≡ told_at o path }
    ensures removed { (nodes : List Node) (o : Option Records) → Ascends nodes → All (λ n. IsKey n.key) nodes
        → All (λ n. IsToldAt (told_removed o nodes) (path_text n.key) None) nodes }
    ensures removed_elsewhere { (path : List ℕ) (nodes : List Node) (o : Option Records) → All (λ n. path ≡ path_text n.key → ⊥) nodes
        → told_at (told_removed o nodes) path ≡ told_at o path }
    ensures add { (node : Node) (made : Bool) (old new : List Node) (was is : Records) → IsNode node → Ascends old → IsLoaded was old
        → Adds node (Ok made) old new (Some was) (Some is) → IsLoaded is new }
    ensures update { (f : Filter) (name value : List ℕ) (count : ℕ) (old new : List Node) (was is : Records) → Ascends old → IsLoaded was old
        → Updates f name value (Ok count) old new (Some was) (Some is) → IsLoaded is new }
    ensures delete { (f : Filter) (living : List SessionInfo) (count : ℕ) (old new : List Node) (was is : Records) → Ascends old → IsLoaded was old
        → Deletes f living (Ok count) old new (Some was) (Some is) → IsLoaded is new }
{}
