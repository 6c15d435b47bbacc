//! The modes of the program.

ghost use Rattle.std.specs.Prelude.{◌≡◌, MatchOption, false, true};
ghost use Rattle.nm_words.specs.declared.mode.Mode.{Mode as ModeOf};
ghost use Rattle.nm_words.specs.Modes.{IsSubject, mode_word, takes_schedule};

use crate::subject::modules_in;

/// What the program does with its subject: it reports the races of an application, or it compiles the application, and
/// runs its image or does not, or it runs the image of a file, or it makes an application of so many modules, builds it,
/// and counts what its run does.
#[derive(Clone, Copy, Debug, PartialEq, Eq)]
pub enum Mode {
    Check,
    Build,
    Run,
    Mote,
    Gen,
}

impl Mode {
    /// The mode that a word names.
    pub fn of_word(word: &str) -> Option<Mode>
        ensures { MatchOption result ((m : ModeOf) → word.now ≡ mode_word m → ⊥) (λ m. word.now ≡ mode_word m) }
    {
        match word {
            "check" => Some(Mode::Check),
            "build" => Some(Mode::Build),
            "run" => Some(Mode::Run),
            "mote" => Some(Mode::Mote),
            "gen" => Some(Mode::Gen),
            _ => None,
        }
    }

    /// Whether a schedule stands behind the subject.
    pub fn takes_schedule(self) -> bool
        ensures { result ≡ takes_schedule self }
    {
        match self {
            Mode::Check | Mode::Build | Mode::Gen => false,
            Mode::Run | Mode::Mote => true,
        }
    }

    /// Whether the word behind that of the mode can be its subject.
    #[tactic(auto, using(crate::proofs::Subjects::found, crate::proofs::Subjects::lacking))]
    pub fn takes_subject(self, word: &str) -> bool
        ensures taken { result ≡ true → IsSubject self word.now }
        ensures refused { result ≡ false → IsSubject self word.now → ⊥ }
    {
        match self {
            Mode::Check | Mode::Build | Mode::Run | Mode::Mote => true,
            Mode::Gen => modules_in(word).is_some(),
        }
    }
}
