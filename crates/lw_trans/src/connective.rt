ghost use Rattle.std.specs.Prelude.{◌≡◌};
ghost use Rattle.lw_trans.specs.Connectives as order;
ghost use Rattle.lw_trans.specs.Private.FirstConnective as found;

/// A connective that no intuitionistic formula has.
#[derive(Clone, Copy, Debug, PartialEq, Eq)]
pub enum Connective {
    /// `box`
    Nec,
    /// `dia`
    Poss,
    /// `<->`
    Iff,
    /// `true`
    Top,
}

impl Connective {
    /// The place of the connective in the order in which faults name it, from 0.
    fn naming_place(self) -> u8
        ensures { result ≡ order.naming_place self }
    {
        match self {
            Connective::Nec => 0,
            Connective::Poss => 1,
            Connective::Iff => 2,
            Connective::Top => 3,
        }
    }
}

/// The earlier of the two, where there are two.
pub fn earlier(left: Option<Connective>, right: Option<Connective>) -> Option<Connective>
    ensures { result ≡ found.earlier left right }
{
    match (left, right) {
        (None, _) => right,
        (_, None) => left,
        (Some(first), Some(second)) => if first.naming_place() <= second.naming_place() {
            left
        } else {
            right
        },
    }
}
