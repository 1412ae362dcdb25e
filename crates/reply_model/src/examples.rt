//! Worked examples: the answers to requests over the empty image and the sample image, by
//! computation.
#![tactic(auto, unfolding(crate::proofs::Computing::replies_on_literals))]

ghost use Rattle.reply_model.specs.Examples.{StreamExamples, FaultOrder, FaultExamples, EmptyImageFields, InitExamples, GetattrExamples, ReaddirExamples, ReaddirplusExamples, ReadExamples, LookupExamples, OwnedExamples, NodeExamples, OpenExamples, SessionExamples, ExportExamples, SilentExamples, RefusalOrder, TwelveRequests, BalanceExamples};
ghost use Rattle.reply_model.specs.XattrExamples.{GetxattrExamples, ListxattrExamples, AclReplyExamples, UnservedExamples};
ghost use Rattle.reply_model.specs.LastingExamples.{LastingInitExamples, LastingSessionExamples, LastingLookupExamples, LastingOpenExamples, LastingFlushExamples, LastingStayExamples, LastingStreamExamples};

/// The fields of the empty image.
pub fn the_empty_image_example()
    ensures { EmptyImageFields }
{}

/// INIT: versions and terms.
pub fn init_example()
    ensures { InitExamples }
{}

/// GETATTR over the empty image.
pub fn getattr_example()
    ensures { GetattrExamples }
{}

/// READDIR over the empty image.
pub fn readdir_example()
    ensures { ReaddirExamples }
{}

/// READDIRPLUS over the sample image.
pub fn readdirplus_example()
    ensures { ReaddirplusExamples }
{}

/// READ over the sample image.
pub fn read_example()
    ensures { ReadExamples }
{}

/// LOOKUP over the sample image.
pub fn lookup_example()
    ensures { LookupExamples }
{}

/// Attributes over the sample image with a row and an owner.
pub fn owned_example()
    ensures { OwnedExamples }
{}

/// Attributes, STATFS, OPEN and the other requests over the sample image.
pub fn node_requests_example()
    ensures { NodeExamples }
{}

/// OPEN and OPENDIR over the sample image.
pub fn open_example()
    ensures { OpenExamples }
{}

/// When sessions begin and end.
pub fn sessions_example()
    ensures { SessionExamples }
{}

/// LOOKUP of . and .. in a session with `FUSE_EXPORT_SUPPORT`.
pub fn export_example()
    ensures { ExportExamples }
{}

/// Requests without a reply.
pub fn silent_example()
    ensures { SilentExamples }
{}

/// Which of two errors a request gets.
pub fn order_of_refusals_example()
    ensures { RefusalOrder }
{}

/// GETXATTR over the sample image with extended attributes.
pub fn getxattr_example()
    ensures { GetxattrExamples }
{}

/// LISTXATTR over it.
pub fn listxattr_example()
    ensures { ListxattrExamples }
{}

/// Access control lists, and the terms of a session with them.
pub fn acl_replies_example()
    ensures { AclReplyExamples }
{}

/// Requests for extended attributes if no node has any.
pub fn unserved_example()
    ensures { UnservedExamples }
{}

/// A complete session of twelve requests over the sample image.
pub fn twelve_requests_example()
    ensures { TwelveRequests }
{}

/// The lookups that requests give and take, and what a client holds after them.
pub fn balances_example()
    ensures { BalanceExamples }
{}

/// Lengths of messages.
#[tactic(auto, using(crate::proofs::Worked::lengths))]
pub fn lengths_example()
    ensures { StreamExamples }
{}

/// Which of two faults is named.
#[tactic(auto, using(crate::proofs::Worked::order))]
pub fn order_of_faults_example()
    ensures { FaultOrder }
{}

/// An image with two faults, and its first 15 bytes.
#[tactic(auto, using(crate::proofs::Worked::faults))]
pub fn faults_example()
    ensures { FaultExamples }
{}

/// INIT of a lasting stream.
pub fn lasting_init_example()
    ensures { LastingInitExamples }
{}

/// When lasting sessions begin and end, and what they remember.
pub fn lasting_sessions_example()
    ensures { LastingSessionExamples }
{}

/// LOOKUP of existing and of missing names, in a lasting session.
pub fn lasting_lookup_example()
    ensures { LastingLookupExamples }
{}

/// OPEN and OPENDIR, in a lasting session.
pub fn lasting_open_example()
    ensures { LastingOpenExamples }
{}

/// FLUSH in a lasting session, and what stays the same.
pub fn lasting_flush_example()
    ensures { LastingFlushExamples }
{}

/// A reply that stays the same in a lasting session, and one that changes.
#[tactic(auto, using(crate::proofs::Lasting::stay))]
pub fn lasting_stay_example()
    ensures { LastingStayExamples }
{}

/// Entire lasting streams, and their balances.
pub fn lasting_streams_example()
    ensures { LastingStreamExamples }
{}
