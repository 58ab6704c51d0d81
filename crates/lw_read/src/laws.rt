ghost use Rattle.std.specs.Prelude.{◌≡◌, ℕ, List};
ghost use Rattle.lw_formula.specs.Formula.{Formula};
ghost use Rattle.lw_formula.specs.Variables.{HasNames};
ghost use Rattle.lw_read.specs.declared.lexer.Token.{Token};
ghost use Rattle.lw_read.specs.Tokens.{tokens_of};
ghost use Rattle.lw_read.specs.TokenRule.{AreTokens};
ghost use Rattle.lw_read.specs.Lexemes.{Lexeme};
ghost use Rattle.lw_read.specs.Places.{HasOneCount};
ghost use Rattle.lw_read.specs.Grammar.{formulas, ReadsAs};
ghost use Rattle.lw_read.specs.Laws.{HasOneTree, HasOneFault, HasOneAnswer, ReadsBack};

/// Law: the tokens of a text keep the rule of tokens, and no others do. White space and comments part them, each is the
/// longest that begins at its place, and the last is the end of the text or a byte that begins nothing.
pub fn token_rule()
    ensures rule { (text : List ℕ) → AreTokens text (tokens_of text) }
    ensures only { (text : List ℕ) (tokens : List Token) → AreTokens text tokens → tokens ≡ tokens_of text }
{}

/// Law: a text has at most one tree.
pub fn one_tree()
    ensures { (ts : List Lexeme) → HasOneTree ts }
{}

/// Law: a text has at most one fault, want of memory aside, since the tokens up to one determine how many constructs
/// are unfinished there. With `one_tree` and `one_answer` the text alone determines its tree or its fault.
pub fn one_fault()
    ensures count { HasOneCount formulas }
    ensures fault { (text : List ℕ) → HasOneFault text }
{}

/// Law: a text that reads as a formula has no fault.
pub fn one_answer()
    ensures { (text : List ℕ) → HasOneAnswer text }
{}

/// Law: the printed text of a formula whose letters are names has the formula's tree, and reads back as it where it has
/// no fault.
pub fn reads_back()
    ensures { (a : Formula) → HasNames a → ReadsBack a }
{}

/// Law: the letters of a formula that a text reads as are names.
pub fn letters_are_names()
    ensures { (text : List ℕ) (a : Formula) → ReadsAs text a → HasNames a }
{}
