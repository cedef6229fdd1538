//! Certificates that come in pieces of any size.
ghost use Rattle.std.specs.Prelude.{◌<◌};

use crate::certificates::{BAD_WORD_OF_TWO, REFUTATION_OF_TWO};
use crate::desks::{CHECK, Files, said, same, told};
use crate::systems::TWO_OF_TWO;
use command_run::Status;
use std::alloc::Global;
use std::process::Abort;

static CERTIFICATES: [(&str, Status, &str); 2] = [
    (
        REFUTATION_OF_TWO,
        Status::Yes,
        "accepted refutation\nfrom\nfaulty\n",
    ),
    (BAD_WORD_OF_TWO, Status::CertRefused, "refused bad-line 7\n"),
];

// Fails unless both end so on a desk that moves so many bytes at once.
fn wants_in_pieces(rt: &impl Abort, alloc: Global, piece: usize)
    requires { 0 < piece }
{
    for (cert, status, text) in CERTIFICATES.iter() {
        let held = Files::with_cert(TWO_OF_TWO.as_bytes(), cert.as_bytes());
        let want = said(alloc, CHECK, *status, text.as_bytes());
        same(rt, told(alloc, CHECK, &held, piece), want);
    }
}

#[test]
fn check_reads_a_refutation_in_pieces_of_any_size(rt: HostRuntime) {
    wants_in_pieces(&rt, rt.alloc(), 1);
    wants_in_pieces(&rt, rt.alloc(), 7);
    wants_in_pieces(&rt, rt.alloc(), 65_536);
}
