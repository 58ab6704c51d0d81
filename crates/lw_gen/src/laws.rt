//! Laws of the families. Each function does nothing: its clause is the law, which is proved.
ghost use Rattle.lw_gen.specs.Laws.{TransitiveIsExact, ReflexiveIsExact, LoebIsExact};

/// From 1 on each formula of `Transitive` is valid in S4, S5, GL, Grz and K4, and in none of K, KT and KD.
pub fn transitive_is_exact()
    ensures { TransitiveIsExact }
{}

/// Each formula of `Reflexive` is valid in KT, S4, S5 and Grz, and in none of K, GL, K4 and KD.
pub fn reflexive_is_exact()
    ensures { ReflexiveIsExact }
{}

/// Each formula of `Loeb` is valid in GL, and in none of the other seven logics.
pub fn loeb_is_exact()
    ensures { LoebIsExact }
{}
