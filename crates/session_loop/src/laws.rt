//! What holds of the definitions themselves. Each law is the contract of a function that does nothing.
ghost use Rattle.std.specs.Prelude.{◌≡◌, ℕ, List};
ghost use Rattle.session_loop.specs.Cutting.{Request, Ending, Cut};

/// A connection's bytes are cut into requests in one way, whatever the documents and however many requests may come:
/// there is at most one, and it can't be that there is none.
pub fn one_cut()
    ensures one { (names : List (List ℕ)) (left : ℕ) (bytes : List ℕ) (rs qs : List Request) (e f : Ending)
        → Cut names left bytes rs e → Cut names left bytes qs f → (rs ≡ qs) × (e ≡ f) }
    ensures some { (names : List (List ℕ)) (left : ℕ) (bytes : List ℕ)
        → ¬ ((rs : List Request) (e : Ending) → ¬ Cut names left bytes rs e) }
{}
