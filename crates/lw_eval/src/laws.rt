ghost use Rattle.lw_eval.specs.Laws.{RunGoesOn, RunFallsApart, RunMayBeCut, OneOutput, StepsEnd};

/// Law: where a run is carried out, another goes on from there, with its variables and its steps, and writes behind it.
pub fn run_goes_on()
    ensures { RunGoesOn }
{}

/// Law: a run of statements and then others ends in the first, or is one run and then the other.
pub fn run_falls_apart()
    ensures { RunFallsApart }
{}

/// Law: a run that is carried out may be cut before the next statement.
pub fn run_may_be_cut()
    ensures { RunMayBeCut }
{}

/// Law: a script that calls none of `certificate`, `interpolate` and `smallest` has at most one output and one end.
pub fn one_output()
    ensures { OneOutput }
{}

/// Law: where all steps are taken, the next statement ends the run at its line, if the run isn't cut before, and does
/// nothing else.
pub fn steps_end()
    ensures { StepsEnd }
{}
