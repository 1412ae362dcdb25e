//! Laws of all streams, from the definitions alone.

ghost use Rattle.std.specs.Prelude.{◌≡◌, ◌+◌, ◌*◌, ◌≤◌, length, ◌++◌, ◌∷◌, [], ℕ, List, take, drop, Some};
ghost use Rattle.fuse_wire.specs.declared.framing.Framed.{Framed};
ghost use Rattle.fuse_wire.specs.Frames.{Frames};
ghost use Rattle.fuse_wire.specs.Stream.{BeginsMessage, IsBad, IsRest, IsSplit};
ghost use Rattle.fuse_wire.specs.declared.limits.TheConstants.{HEADER_SIZE, OUT_HEADER_SIZE, MAX_MESSAGE_SIZE, MAX_FORGETS};
ghost use Rattle.fuse_wire.specs.Requests.{forgets_of};
ghost use Rattle.fuse_wire.specs.Laws.{BodySizes, ReplySizes, RowSizes};
ghost use Rattle.fuse_wire.specs.Told.{Reading, IsTold, IsRight};
ghost use Rattle.devices.specs.Sources.{MayLack, Shows, held};

/// Every stream is cut into messages and a rest in exactly one way.
#[tactic(auto, using(crate::proofs::Splits::one_split, crate::proofs::Splits::some_split))]
pub fn one_split()
    ensures some { (stream : List ℕ) → (ms : List (List ℕ)) × (rest : List ℕ)
        × IsSplit stream ms rest }
    ensures once { (stream : List ℕ) (ms ns : List (List ℕ)) (r q : List ℕ) →
        IsSplit stream ms r → IsSplit stream ns q → (ms ≡ ns) × (r ≡ q) }
{}

/// A stream may be cut piece by piece: what remains of one piece precedes the next, and a bad
/// length stays bad.
#[tactic(auto, using(crate::proofs::Begins::pieces))]
pub fn pieces_do_not_matter()
    ensures goes_on { (x y rest end : List ℕ) (ms ns : List (List ℕ)) →
        IsSplit x ms rest → IsSplit (rest ++ y) ns end → IsSplit (x ++ y) (ms ++ ns) end }
    ensures stays_whole { (bytes y : List ℕ) (n : ℕ) → BeginsMessage bytes n →
        BeginsMessage (bytes ++ y) n }
    ensures stays_bad { (rest y : List ℕ) (n : ℕ) → IsBad rest n → IsBad (rest ++ y) n }
{}

/// Bytes frame in one way, and the frames of a stream, one after another, are its split.
#[tactic(auto, using(crate::proofs::Begins::frames))]
pub fn frames_make_the_split()
    ensures once { (bytes : List ℕ) (f g : Framed) → Frames bytes f → Frames bytes g → f ≡ g }
    ensures first { (bytes rest : List ℕ) (n : ℕ) (ms : List (List ℕ)) →
        BeginsMessage bytes n → IsSplit (drop n bytes) ms rest →
        IsSplit bytes (take n bytes ∷ ms) rest }
    ensures last { (bytes : List ℕ) → IsRest bytes → IsSplit bytes [] bytes }
{}

/// A request's body is malformed if it is shorter than its structure, and otherwise never, whatever
/// follows the structure.
#[tactic(auto, using(crate::proofs::Bodies::body_sizes))]
pub fn bodies_hold_their_structures()
    ensures { BodySizes }
{}

/// A message forgets at most 65,789 nodes, and the longest one has room for them.
#[tactic(auto, using(crate::proofs::Bodies::few_forgets))]
pub fn forgets_are_few()
    ensures most { (body : List ℕ) →
        HEADER_SIZE + length body ≤ MAX_MESSAGE_SIZE → length (forgets_of body) ≤ MAX_FORGETS }
    ensures reached { HEADER_SIZE + 8 + 16 * MAX_FORGETS ≤ MAX_MESSAGE_SIZE }
{}

/// The structures of replies have their sizes, and rows a multiple of 8 bytes.
#[tactic(auto, using(crate::proofs::Bodies::reply_sizes, crate::proofs::Bodies::row_sizes))]
pub fn structures_have_their_sizes()
    ensures replies { ReplySizes }
    ensures rows { RowSizes }
{}

/// A reply whose data are read from shown bytes is the defined reply, if these are the right data,
/// or that of EIO. If the source lacks none of them, for instance because they are held, it is the
/// defined reply.
pub fn shown_data_are_told()
    ensures shown { (reading : Reading) (xs : List ℕ) (unique : ℕ) (defined bytes : List ℕ) →
        Shows reading.source xs →
        drop OUT_HEADER_SIZE defined
        ≡ take (length (drop OUT_HEADER_SIZE defined)) (drop reading.place xs) →
        IsTold (Some reading) unique defined bytes → IsRight (Some reading) unique defined bytes }
    ensures whole { (reading : Reading) (xs : List ℕ) (unique : ℕ) (defined bytes : List ℕ) →
        Shows reading.source xs →
        ((end : ℕ) → end ≤ length xs → MayLack reading.source end → ⊥) →
        drop OUT_HEADER_SIZE defined
        ≡ take (length (drop OUT_HEADER_SIZE defined)) (drop reading.place xs) →
        IsTold (Some reading) unique defined bytes → bytes ≡ defined }
    ensures held { (xs : List ℕ) (place unique : ℕ) (defined bytes : List ℕ) →
        drop OUT_HEADER_SIZE defined
        ≡ take (length (drop OUT_HEADER_SIZE defined)) (drop place xs) →
        IsTold (Some (record { source = held xs; place = place })) unique defined bytes →
        bytes ≡ defined }
{}
