//! What holds of sources, by the definitions alone.

ghost use Rattle.std.specs.Prelude.{◌≡◌, ℕ, List, length, take, drop};
ghost use Rattle.devices.specs.Sources.{Source, MayGive, Shows, held};

/// Reads of held bytes give exactly these, from the place at which the read begins.
#[tactic(auto, using(crate::proofs::Held::held_may))]
pub fn held_bytes_are_given()
    ensures only { (xs ys : List ℕ) (place : ℕ) →
        MayGive (held xs) place ys → ys ≡ take (length ys) (drop place xs) }
    ensures those { (xs : List ℕ) (place n : ℕ) →
        MayGive (held xs) place (take n (drop place xs)) }
{}

/// Reads give the bytes that are shown, whichever these are.
#[tactic(auto, using(crate::proofs::Shown::shown_given))]
pub fn shown_bytes_are_given()
    ensures { (source : Source) (xs ys : List ℕ) (place : ℕ) → Shows source xs →
        MayGive source place ys → ys ≡ take (length ys) (drop place xs) }
{}
