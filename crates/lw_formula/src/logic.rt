ghost use Rattle.std.specs.Prelude.{◌≡◌, ◌≢◌, MatchOption};
ghost use Rattle.lw_formula.specs.Logic.{word_of, logic_of};

/// A logic, which stands for the class of its finite models.
#[derive(Clone, Copy, Debug, PartialEq, Eq, Hash)]
pub enum Logic {
    K,
    KT,
    S4,
    S5,
    GL,
    Grz,
    K4,
    KD,
}

impl Logic {
    /// The word that stands for the logic on the command line, in scripts and in certificates.
    pub fn word(self) -> &'static str
        ensures { result.now ≡ word_of self }
    {
        match self {
            Logic::K => "k",
            Logic::KT => "kt",
            Logic::S4 => "s4",
            Logic::S5 => "s5",
            Logic::GL => "gl",
            Logic::Grz => "grz",
            Logic::K4 => "k4",
            Logic::KD => "kd",
        }
    }

    /// The logic that the word stands for, if it is the word of one.
    pub fn from_word(word: &[u8]) -> Option<Logic>
        ensures named { result ≡ logic_of word.now }
        ensures exact { MatchOption result ((logic : Logic) → word.now ≢ word_of logic) (λ logic. word.now ≡ word_of logic) }
    {
        if word == b"k".as_slice() {
            Some(Logic::K)
        } else if word == b"kt".as_slice() {
            Some(Logic::KT)
        } else if word == b"s4".as_slice() {
            Some(Logic::S4)
        } else if word == b"s5".as_slice() {
            Some(Logic::S5)
        } else if word == b"gl".as_slice() {
            Some(Logic::GL)
        } else if word == b"grz".as_slice() {
            Some(Logic::Grz)
        } else if word == b"k4".as_slice() {
            Some(Logic::K4)
        } else if word == b"kd".as_slice() {
            Some(Logic::KD)
        } else {
            None
        }
    }
}
