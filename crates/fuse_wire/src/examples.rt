//! Worked examples: what messages ask for, and rows and attributes as bytes, by computation.
#![tactic(auto, unfolding(crate::proofs::Computing::wire_on_literals))]

ghost use Rattle.fuse_wire.specs.Examples.{OpcodeExamples, MessageExamples, ForgetExamples, XattrExamples, DirentExamples, AttributesExample, FlagExamples, LimitExamples};

/// What each opcode asks for, by its number.
pub fn opcodes_example()
    ensures { OpcodeExamples }
{}

/// The places of a message's unique and node.
pub fn message_example()
    ensures { MessageExamples }
{}

/// Which items a BATCH_FORGET has.
pub fn forgets_example()
    ensures { ForgetExamples }
{}

/// Requests for extended attributes, and their length as an answer.
pub fn xattrs_example()
    ensures { XattrExamples }
{}

/// Names of several lengths in rows.
pub fn dirents_example()
    ensures { DirentExamples }
{}

/// The attributes of a node, with its owner and its time.
pub fn attributes_example()
    ensures { AttributesExample }
{}

/// The bits of flags.
pub fn flags_example()
    ensures { FlagExamples }
{}

/// The numbers of the limits.
pub fn limits_example()
    ensures { LimitExamples }
{}
