//! Worked examples of images that stay in their files.

ghost use Rattle.std.specs.Prelude.{◌≢◌, take};
ghost use Rattle.romfs_format.specs.declared.rule.Profile.TheVariants.{UsualWithAttributes};
ghost use Rattle.romfs_format.specs.Trailer.{rows_shown};
ghost use Rattle.romfs_format.specs.TrailerExamples.{two_rows};
ghost use Rattle.romfs_kept.specs.Footprint.{reach};
ghost use Rattle.romfs_kept.specs.Gathered.{IsGatheredOf};

/// A profile that reads attributes needs the trailer, too: the accessible bytes of the image with
/// two rows are gathered from it, but show other rows.
pub fn trailer_left_out_example()
    ensures gathered { IsGatheredOf two_rows (take (reach two_rows) two_rows) }
    ensures rows { rows_shown UsualWithAttributes (take (reach two_rows) two_rows)
        ≢ rows_shown UsualWithAttributes two_rows }
{}
