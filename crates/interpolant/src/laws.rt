// The laws of interpolants.
ghost use Rattle.std.specs.Prelude.{◌≡◌, true};
ghost use Rattle.interpolant.specs.Example.{Example};
ghost use Rattle.interpolant.specs.Interpolation.{Determined, Separates};
ghost use Rattle.interpolant.specs.Meaning.{PathParted};

// Wherever a question is cut in two, the partial interpolant of a refutation's last line is true where the first part is and false
// where the second is; and path questions are cut so.
pub fn interpolants_separate() -> bool
    ensures says_so { result ≡ true }
    ensures partial_interpolants_are_determined { Determined }
    ensures partial_interpolants_separate { Separates }
    ensures path_questions_are_parted { PathParted }
{
    true
}

// A path question of a small sheet is refuted and its interpolant drawn, so that what is said of every drawing is not said of none.
pub fn an_interpolant_is_drawn() -> bool
    ensures says_so { result ≡ true }
    ensures all_that_is_supposed_is_so { Example }
{
    true
}
