//! A row as it is kept.

ghost use Rattle.std.specs.Prelude.{◌≡◌};

use romfs_format::AttributeRow;
use std::marker::Model;

/// How many numbers the lower half of a row's seconds can be.
const HALF: u64 = 0x1_0000_0000;

/// A row of an attribute trailer in 28 bytes: its seconds are two halves, since an eight-byte
/// number would make it 32. A clause sees the row.
#[derive(Drop)]
pub(crate) struct KeptRow {
    place: u32,
    mode: u32,
    uid: u32,
    gid: u32,
    // Lower half first, as on x86, where one load then reads both.
    seconds_low: u32,
    seconds_high: u32,
    nanoseconds: u32,
}

const _: () = prove!(size_of::<KeptRow>() <= 28);

impl Model for KeptRow {
    ghost use Rattle.std.specs.Prelude.{◌+◌, ◌*◌, ◌^◌};
    ghost use Rattle.romfs_format.specs.declared.attribute_row.AttributeRow.{AttributeRow};

    ghost Value = { AttributeRow };

    ghost view = { λ kept. record {
      place = kept.place;
      mode = kept.mode;
      uid = kept.uid;
      gid = kept.gid;
      seconds = kept.seconds_high * 2 ^ 32 + kept.seconds_low;
      nanoseconds = kept.nanoseconds;
    } };
}

impl KeptRow {
    /// A row, to be kept.
    pub(crate) fn of(row: AttributeRow) -> KeptRow
        ensures { result ≡ row }
    {
        KeptRow {
            place: row.place,
            mode: row.mode,
            uid: row.uid,
            gid: row.gid,
            seconds_low: (row.seconds % HALF) as u32,
            seconds_high: (row.seconds / HALF) as u32,
            nanoseconds: row.nanoseconds,
        }
    }

    /// The offset of the header that it is for.
    pub(crate) fn place(&self) -> u32
        ensures { result ≡ self.now.place }
    {
        self.place
    }

    /// The row.
    pub(crate) fn row(&self) -> AttributeRow
        ensures { result ≡ self.now }
    {
        AttributeRow {
            place: self.place,
            mode: self.mode,
            uid: self.uid,
            gid: self.gid,
            seconds: u64::from(self.seconds_high) * HALF + u64::from(self.seconds_low),
            nanoseconds: self.nanoseconds,
        }
    }
}
