//! Worked texts and lines, by computation.

ghost use Rattle.std.specs.Prelude.{◌≡◌, ◌∷◌, [], codes};
ghost use Rattle.stack_model.specs.Listing.{stacked};
ghost use Rattle.node_list.specs.Examples.{sticky_root};
ghost use Rattle.node_list.specs.Lines.{escaped, name_text, path_text, mode_text, lines};

/// Bytes of a name: a space, a backslash, those just inside and just outside 0x21 to 0x7e, and the
/// greatest.
pub fn escapes()
    ensures space { escaped 0x20 ≡ codes "\\20" }
    ensures backslash { escaped 0x5c ≡ codes "\\5c" }
    ensures first { escaped 0x21 ≡ codes "!" }
    ensures last { escaped 0x7e ≡ codes "~" }
    ensures delete { escaped 0x7f ≡ codes "\\7f" }
    ensures newline { escaped 0x0a ≡ codes "\\0a" }
    ensures greatest { escaped 0xff ≡ codes "\\ff" }
{}

/// Modes: directories with and without the executable bit, a regular file, a symbolic link, and a
/// fifo.
pub fn modes()
    ensures directory { mode_text 0x41ed ≡ codes "040755" }
    ensures closed { mode_text 0x41a4 ≡ codes "040644" }
    ensures regular { mode_text 0x81a4 ≡ codes "100644" }
    ensures link { mode_text 0xa1ff ≡ codes "120777" }
    ensures fifo { mode_text 0x11a4 ≡ codes "010644" }
{}

/// Paths: the root, and one with a space in its second name.
#[tactic(auto, unfolding(crate::specs::Lines::name_text))]
pub fn paths()
    ensures root { path_text [] ≡ codes "/" }
    ensures names { path_text (codes "a" ∷ codes "b c" ∷ []) ≡ codes "/a/b\\20c" }
{}

/// The list of a layer of four bytes, the first word of a header: a directory with the executable
/// bit.
pub fn root_alone()
    ensures { lines (stacked ((0 ∷ 0 ∷ 0 ∷ 9 ∷ []) ∷ [])
        (record { path = []; layer = 0; header = 0 } ∷ [])) ≡ codes "1 040755 2 0 0 /\n" }
{}

/// The same if the directory has a row with the sticky bit, and all bits below it.
pub fn root_with_a_row()
    ensures { lines sticky_root ≡ codes "1 041777 2 0 0 /\n" }
{}
