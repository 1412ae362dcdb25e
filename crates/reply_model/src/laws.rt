//! Laws of all replies.

ghost use Rattle.std.specs.Prelude.{◌≡◌, ◌⊎◌, ◌≤◌, ◌+◌, [], ◌∷◌, ◌++◌, ℕ, List, length, drop, map, slice_get, Some, All, true, false, ◌+ℤ◌, ◌≢◌, ◌↔◌, Bool, IsTrue, None};
ghost use Rattle.devices.specs.Sources.{Source, Shows, sealed, held};
ghost use Rattle.devices.specs.Honest.{IsHonest};
ghost use Rattle.devices.specs.Seal.{Seal};
ghost use Rattle.romfs_format.specs.declared.rule.Profile.TheVariants.{Usual};
ghost use Rattle.romfs_format.specs.Fields.{image};
ghost use Rattle.romfs_format.specs.Rules.{IsSound};
ghost use Rattle.fuse_wire.specs.Requests.{Op, Asked, at_node, lookup, read, readdirplus, done, destroy, getxattr, listxattr};
ghost use Rattle.fuse_wire.specs.declared.limits.TheConstants.{MAX_REPLY_SIZE, OUT_HEADER_SIZE};
ghost use Rattle.fuse_wire.specs.declared.errno.Errno.TheVariants.{EIO, ENOSYS};
ghost use Rattle.fuse_wire.specs.Replies.{error_reply};
ghost use Rattle.romfs_format.specs.Extended.{Extended};
ghost use Rattle.fuse_wire.specs.Stream.{said_length};
ghost use Rattle.stack_model.specs.Listing.{Entry, Stacked, IsListing};
ghost use Rattle.reply_model.specs.declared.session.Session.{Session};
ghost use Rattle.reply_model.specs.Replies.{reply};
ghost use Rattle.reply_model.specs.Holding.{Holds, AreHeldBy};
ghost use Rattle.reply_model.specs.Readings.{sourced, AreShown, AreVouched, IsReplyOver, IsRightOver};
ghost use Rattle.reply_model.specs.Refusals.{asks_xattrs, refusal};
ghost use Rattle.reply_model.specs.Xattrs.{xattrs_told, refused_xattr};
ghost use Rattle.reply_model.specs.declared.session.Session.TheVariants.{Fresh, LastingFresh};
ghost use Rattle.reply_model.specs.Sessions.{is_fresh, session_after, agreement_of};
ghost use Rattle.reply_model.specs.Lasting.{usual_of, LastsAs};
ghost use Rattle.reply_model.specs.declared.moves.Move.{Move};
ghost use Rattle.reply_model.specs.Moves.{moves, balance};
ghost use Rattle.reply_model.specs.Streams.{session_at, replies_by, moves_by, balance_after};
ghost use Rattle.reply_model.specs.Laws.{IsReplyTo, AreFirstThatFit, GivesEntry, GivesRows, is_moving, AreLayersOfBytes, AreOwned, FitsFields, AreListed, is_listed};
ghost use Rattle.stack_model.specs.Numbers.{Place, nodes, node_of, number};
ghost use Rattle.stack_model.specs.Attributes.{attr_of, data_start, has_acls, has_xattrs};
ghost use Rattle.reply_model.specs.Rows.{Row, fitting};

/// A reply is empty, or it begins with its own length, as a word of 32 bits, and has its request's
/// unique.
#[tactic(auto, using(crate::proofs::Headers::headed))]
pub fn replies_are_headed()
    ensures { (stack : Stacked) (s : Session) (q : Asked) →
        (reply stack s q ≡ []) ⊎ IsReplyTo q.unique (reply stack s q) }
{}

/// Over sound images, whose files have lists of extended attributes that Linux allows, a reply has
/// at most 1 MiB of data after its header of 16 bytes. So the length that a reply begins with is
/// its true length, which fits in 32 bits.
#[tactic(auto, using(crate::proofs::Lengths::short, crate::proofs::Lengths::said))]
pub fn replies_are_short()
    ensures short { (bs : List (List ℕ)) (stack : Stacked) → All (IsSound Usual) bs →
        stack.layers ≡ map image bs → IsListing stack.layers stack.entries → AreListed stack →
        (s : Session) (q : Asked) → length (reply stack s q) ≤ MAX_REPLY_SIZE }
    ensures said { (bs : List (List ℕ)) (stack : Stacked) → All (IsSound Usual) bs →
        stack.layers ≡ map image bs → IsListing stack.layers stack.entries → AreListed stack →
        (s : Session) (q : Asked) → (reply stack s q ≡ [])
        ⊎ (said_length (reply stack s q)
        ≡ length (reply stack s q)) }
{}

/// The rows that fit in a size are the first ones, complete, and as many as fit.
#[tactic(auto, using(crate::proofs::Fronts::front))]
pub fn fitting_rows_are_the_first()
    ensures { (form : Row → List ℕ) (room : ℕ) (rows : List Row) →
        AreFirstThatFit form room rows (fitting form room rows) }
{}

/// A lookup is counted exactly if an entry is answered: LOOKUP adds one for the node whose entry
/// its reply holds, and READDIRPLUS one for the node of each row in its reply except `.` and `..`;
/// errors and negative entries add none.
#[tactic(auto, using(crate::proofs::Given::given))]
pub fn entries_are_given()
    ensures lookup { (stack : Stacked) (s : Session)
        (unique node : ℕ) (name : List ℕ) →
        GivesEntry stack s
        (record { unique = unique; node = node; op = at_node (lookup name) }) }
    ensures readdirplus { (stack : Stacked) (s : Session)
        (unique node offset size : ℕ) →
        GivesRows stack s
        (record { unique = unique; node = node; op = at_node (readdirplus offset size) }) }
    ensures others { (stack : Stacked) (s : Session) (q : Asked) →
        is_moving q.op ≡ false → moves stack s q ≡ [] }
    ensures fresh { (stack : Stacked) (s : Session) (q : Asked) →
        is_fresh s ≡ true → moves stack s q ≡ [] }
{}

/// Requests may be split into parts: their replies and moves are those of the parts, with the
/// session carried along, and a balance is the sum of the parts' balances.
#[tactic(auto, using(crate::proofs::Balances::parts))]
pub fn parts_of_a_stream_add_up()
    ensures replies { (answered : Session → Asked → List ℕ) (s : Session) (qs rs : List Asked) →
        replies_by answered s (qs ++ rs)
        ≡ replies_by answered s qs ++ replies_by answered (session_at s qs) rs }
    ensures moves { (moved : Session → Asked → List Move) (s : Session) (qs rs : List Asked) →
        moves_by moved s (qs ++ rs) ≡ moves_by moved s qs ++ moves_by moved (session_at s qs) rs }
    ensures sum { (node : ℕ) (ms ns : List Move) →
        balance node (ms ++ ns) ≡ balance node ms +ℤ balance node ns }
{}

/// DESTROY leaves all balances unchanged.
#[tactic(auto, using(crate::proofs::Given::destroy_leaves))]
pub fn destroy_leaves_balances()
    ensures { (stack : Stacked) (s : Session)
        (qs : List Asked) (unique node n : ℕ) →
        balance n (moves_by (moves stack) s
        (qs ++ record { unique = unique; node = node; op = done destroy } ∷ []))
        ≡ balance n (moves_by (moves stack) s qs) }
{}

/// In a lasting session the replies to a stream are the usual ones except for four things: the
/// terms of INIT; a LOOKUP that finds no entry; OPEN and OPENDIR; FLUSH. Requests move the same
/// lookups, since a name without an entry gives none; sessions change alike, and a stream leaves
/// the same balances.
#[tactic(auto, using(crate::proofs::Lasting::lasting))]
pub fn lasting_replies_differ_in_four_ways()
    ensures replies { (stack : Stacked) (s : Session) (q : Asked) →
        (agreement_of s).lasting ≡ true →
        LastsAs (has_acls stack) (agreement_of s) q.unique q.op
        (reply stack (usual_of s) q) (reply stack s q) }
    ensures moves { (stack : Stacked) (s : Session) (q : Asked) →
        moves stack s q ≡ moves stack (usual_of s) q }
    ensures sessions { (s : Session) (op : Op) →
        usual_of (session_after s op) ≡ session_after (usual_of s) op }
    ensures balances { (stack : Stacked)
        (messages : List (List ℕ)) (node : ℕ) →
        balance_after stack LastingFresh messages node
        ≡ balance_after stack Fresh messages node }
{}

/// Whether a request for extended attributes gets ENOSYS depends only on the stack, never on a node
/// or name: it does if no node has any.
#[tactic(auto, using(crate::proofs::Served::served))]
pub fn attributes_are_served_or_not()
    ensures { (stack : Stacked) (s : Session) (node : ℕ) (op : Op) →
        is_fresh s ≡ false → asks_xattrs op ≡ true →
        (refusal stack s node op ≡ Some ENOSYS) ↔ (has_xattrs stack ≡ false) }
{}

/// A reply with a value or with names is no longer than the client's size.
#[tactic(auto, using(crate::proofs::Served::value_within, crate::proofs::Served::names_within))]
pub fn attributes_fit_the_size()
    ensures value { (stack : Stacked) (s : Session) (unique node size : ℕ) (name : List ℕ) →
        size ≢ 0 →
        length (reply stack s
        (record { unique = unique; node = node; op = at_node (getxattr size name) }))
        ≤ OUT_HEADER_SIZE + size }
    ensures names { (stack : Stacked) (s : Session) (unique node size : ℕ) →
        size ≢ 0 →
        length (reply stack s
        (record { unique = unique; node = node; op = at_node (listxattr size) }))
        ≤ OUT_HEADER_SIZE + size }
{}

/// A listing has exactly the names for which GETXATTR finds a value.
#[tactic(auto, using(crate::proofs::Xattrs::listed))]
pub fn listed_names_have_values()
    ensures { (acls : Bool) (name : List ℕ) (xs : List Extended) →
        IsTrue (is_listed name (xattrs_told acls xs)) ↔ (refused_xattr acls 0 name xs ≡ None) }
{}

/// Attributes fit their fields if those of the rows and of the owner do, and numbers are at most
/// the count of nodes.
#[tactic(auto, using(crate::proofs::Widths::attributes_fit, crate::proofs::Widths::numbers_fit))]
pub fn attributes_fit_their_fields()
    ensures fields { (stack : Stacked) (p : Place) →
        AreLayersOfBytes stack.layers → AreOwned stack → FitsFields (attr_of stack p) }
    ensures numbers { (entries : List Entry) (p : Place) →
        number entries p ≤ length (nodes entries) }
{}

/// Data that are read from sources which show the layers' bytes are those that are defined: the
/// reply is the defined one, or EIO for a READ of data. If the sources lack none of these bytes it
/// is the defined one: for bytes in memory, and for files under a digest that are the named ones.
/// Under a digest each byte of data is from a block for which the digest vouches, whatever the
/// files return.
pub fn data_are_told_as_shown()
    ensures shown { (stack : Stacked) (sources : List Source) → AreShown sources stack.layers →
        (s : Session) (q : Asked) (bytes : List ℕ) →
        IsReplyOver (sourced stack sources) s q bytes →
        IsRightOver (sourced stack sources) (reply stack s q) q bytes }
    ensures same { (stack : Stacked) (sources : List Source) → AreHeldBy sources stack.layers →
        (s : Session) (q : Asked) (bytes : List ℕ) →
        IsReplyOver (sourced stack sources) s q bytes → bytes ≡ reply stack s q }
    ensures held { (images : List (List ℕ)) → AreHeldBy (map held images) images }
    ensures honest { (s : Seal) (xs : List ℕ) → IsHonest s xs → Shows (sealed s) xs →
        Holds (sealed s) xs }
    ensures vouched { (stack : Stacked) (sources : List Source) (offset size : ℕ) (p : Place)
        (seal : Seal) (s : Session) (q : Asked) (bytes : List ℕ) →
        q.op ≡ at_node (read offset size) → node_of stack.entries q.node ≡ Some p →
        slice_get sources p.0 ≡ Some (sealed seal) →
        IsReplyOver (sourced stack sources) s q bytes →
        AreVouched seal (data_start stack.layers p + offset) (drop OUT_HEADER_SIZE bytes)
        ⊎ (bytes ≡ error_reply q.unique EIO) }
{}
