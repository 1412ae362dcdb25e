//! What the error numbers of an open `/dev/fuse` mean, by their numbers on Linux.

ghost use Rattle.std.specs.Prelude.{◌≡◌, pos, Some, None};
ghost use Rattle.serve_device.specs.Troubles.{read_trouble, write_trouble};
ghost use Rattle.serve_device.specs.declared.trouble.Trouble.TheVariants.{Again, Unwanted, Gone, Fault};

/// asm-generic/errno-base.h, errno.h: ENOENT is 2, EINTR 4, EAGAIN 11, ENODEV 19, ECONNABORTED 103.
/// EIO (5) and ECONNRESET (104) are faults like any other.
pub fn numbers_of_errors()
    ensures given_up { read_trouble (Some (pos 2)) ≡ Again }
    ensures interrupted { read_trouble (Some (pos 4)) ≡ Again }
    ensures none_yet { read_trouble (Some (pos 11)) ≡ Again }
    ensures aborted { read_trouble (Some (pos 103)) ≡ Again }
    ensures no_read { read_trouble (Some (pos 19)) ≡ Gone }
    ensures failed { read_trouble (Some (pos 5)) ≡ Fault }
    ensures reset { read_trouble (Some (pos 104)) ≡ Fault }
    ensures unnumbered { read_trouble None ≡ Fault }
    ensures unwanted { write_trouble (Some (pos 2)) ≡ Unwanted }
    ensures no_write { write_trouble (Some (pos 19)) ≡ Gone }
    ensures write_interrupted { write_trouble (Some (pos 4)) ≡ Fault }
    ensures write_failed { write_trouble (Some (pos 5)) ≡ Fault }
    ensures write_unnumbered { write_trouble None ≡ Fault }
{}
