ghost use Rattle.std.specs.Prelude.{◌≡◌, ℕ, List, ◌++◌, map};
ghost use Rattle.wt_outside.specs.Asked.{AreAsked, keeper};

/// What it means that names are asked of a store: where each read adds its name and its limit to a list, the list grows by
/// exactly these names, in this order, each with that limit.
pub fn reads_keep_their_order()
    ensures { (faults : List (List ℕ × ℕ) → ℕ) (limit : ℕ) (old new : List (List ℕ × ℕ)) (names : List (List ℕ))
        → AreAsked (keeper faults) limit old names new → new ≡ old ++ map (λ name. (name, limit)) names }
{}
