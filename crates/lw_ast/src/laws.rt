ghost use Rattle.std.specs.Prelude.{ℕ, List};
ghost use Rattle.lw_read.specs.Places.{HasOneCount};
ghost use Rattle.lw_ast.specs.ScriptLexemes.{ScriptLexeme};
ghost use Rattle.lw_ast.specs.ScriptFaults.{scripts, HasOneScript, HasOneScriptFault, HasOneScriptAnswer};

/// Law: a text is at most one script.
pub fn one_script()
    ensures { (ts : List ScriptLexeme) → HasOneScript ts }
{}

/// Law: a text has at most one fault, want of memory aside, since the tokens up to one determine how many constructs
/// are unfinished there. With `one_script` and `one_script_answer` the text alone determines its script or its fault.
pub fn one_script_fault()
    ensures count { HasOneCount scripts }
    ensures fault { (text : List ℕ) → HasOneScriptFault text }
{}

/// Law: a text that reads as a script has no fault.
pub fn one_script_answer()
    ensures { (text : List ℕ) → HasOneScriptAnswer text }
{}
