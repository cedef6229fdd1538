//! The program for callers in C.
#![tactic(auto)]

ghost use Rattle.std.specs.Prelude.{◌≡◌, ◌∷◌, [], All, length};
ghost use Rattle.std.specs.Str.{IsUtf8};
ghost use Rattle.lent_desk.specs.Files.{files_named};
ghost use Rattle.quorum_answers.specs.Answering.{Answers, words_in, program};

use quorum_answers::{LentFiles, QuorumEnd, answered};
use std::alloc::Global;

/// Answers the words over the files, as the program does: library/quorum.h says how C calls it.
///
/// The words stand between zero bytes, without the program's name. They name the files `config`, `orgs`, `script` and `cert`, and a
/// search makes the certificate `made`. The certificate is written to the front of the room and the text to its end: if it is too small for
/// both, the status is 7, and a second run, whose bytes go nowhere, measures how much room they want. Words of which one is not UTF-8 are
/// answered as none are.
#[unsafe(no_mangle)]
pub extern "C" fn quorum_answer(
    alloc: Global,
    words: &[u8],
    config: &[u8],
    orgs: &[u8],
    script: &[u8],
    cert: &[u8],
    room: &mut [u8],
    end: &mut QuorumEnd,
)
    ensures words { All IsUtf8 (words_in words.now)
        → Answers (program ∷ words_in words.now) (files_named config.now orgs.now script.now cert.now) room.new end.new }
    ensures other { (All IsUtf8 (words_in words.now) → ⊥)
        → Answers [] (files_named config.now orgs.now script.now cert.now) room.new end.new }
    ensures len { length room.new ≡ length room.old }
{
    let files = LentFiles {
        config,
        orgs,
        script,
        cert,
    };
    *end = answered(alloc, words, files, room);
}
