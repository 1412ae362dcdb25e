//! The owner of a node, and when it was changed.

ghost use Rattle.std.specs.Prelude.{◌≡◌};
ghost use Rattle.node_reader.specs.Held.{stamp_by};
ghost use Rattle.node_reader.specs.Stamps.{stamp_of};

use romfs_format::AttributeRow;
use stack_model::Owner;
use std::marker::Model;

/// How many numbers the lower half of a stamp's seconds can be.
const HALF: u64 = 0x1_0000_0000;

/// The owner of a node, and when it was last changed.
#[derive(Clone, Copy)]
pub(crate) struct Stamp {
    pub(crate) seconds: u64,
    pub(crate) nanoseconds: u32,
    pub(crate) uid: u32,
    pub(crate) gid: u32,
}

/// A stamp in 20 bytes: its seconds are two halves, since an eight-byte number would make it 24. A
/// contract sees the stamp.
#[derive(Drop)]
pub(crate) struct KeptStamp {
    // Lower half first, as on x86: one load then reads both.
    seconds_low: u32,
    seconds_high: u32,
    nanoseconds: u32,
    uid: u32,
    gid: u32,
}

const _: () = prove!(size_of::<KeptStamp>() <= 20);

impl Model for KeptStamp {
    ghost use Rattle.std.specs.Prelude.{◌+◌, ◌*◌, ◌^◌};
    ghost use Rattle.node_reader.specs.declared.stamp.Stamp.{Stamp};

    ghost Value = { Stamp };

    ghost view = { λ kept. record {
      seconds = kept.seconds_high * 2 ^ 32 + kept.seconds_low;
      nanoseconds = kept.nanoseconds;
      uid = kept.uid;
      gid = kept.gid;
    } };
}

impl KeptStamp {
    /// A stamp to be kept.
    pub(crate) fn of(stamp: Stamp) -> KeptStamp
        ensures { result ≡ stamp }
    {
        KeptStamp {
            seconds_low: (stamp.seconds % HALF) as u32,
            seconds_high: (stamp.seconds / HALF) as u32,
            nanoseconds: stamp.nanoseconds,
            uid: stamp.uid,
            gid: stamp.gid,
        }
    }

    /// The stamp.
    pub(crate) fn stamp(&self) -> Stamp
        ensures { result ≡ self.now }
    {
        Stamp {
            seconds: u64::from(self.seconds_high) * HALF + u64::from(self.seconds_low),
            nanoseconds: self.nanoseconds,
            uid: self.uid,
            gid: self.gid,
        }
    }
}

/// The owner of a row's node, and when it was changed.
pub(crate) fn stamp_of(row: &AttributeRow) -> Stamp
    ensures { result ≡ stamp_of row.now }
{
    Stamp {
        seconds: row.seconds,
        nanoseconds: row.nanoseconds,
        uid: row.uid,
        gid: row.gid,
    }
}

/// The same for a node with or without a row; without one, it has this owner.
pub(crate) fn stamp_by(row: Option<AttributeRow>, owner: Owner) -> Stamp
    ensures { result ≡ stamp_by row owner }
{
    match row {
        None => Stamp {
            seconds: 0,
            nanoseconds: 0,
            uid: owner.uid,
            gid: owner.gid,
        },
        Some(row) => stamp_of(&row),
    }
}
