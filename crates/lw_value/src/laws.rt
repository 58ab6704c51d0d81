ghost use Rattle.lw_formula.specs.Formula.{Formula};
ghost use Rattle.lw_value.specs.Values.{Val, Vals};
ghost use Rattle.lw_value.specs.Laws.{HasOneText, HasOneLine};

/// Law: a value has at most one text, whatever the order of the lists of a certificate's model.
pub fn one_text()
    ensures { (value : Val Formula) → HasOneText value }
{}

/// Law: at most one line is printed of some values.
pub fn one_line()
    ensures { (values : Vals Formula) → HasOneLine values }
{}
