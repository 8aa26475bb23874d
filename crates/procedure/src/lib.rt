// The interpolation procedure of model checking, over sets of states.
#![tactic(auto)]

ghost use Rattle.procedure.specs.Happens.{Happens};
ghost use Rattle.procedure.specs.Procedure.{ProcedureIsRight};

// Every check of every machine: its verdicts are right, and limits that are large enough are never met.
pub fn procedure_is_right()
    ensures every_check_is_right { ProcedureIsRight }
{}

// Checks of small machines that end in each of the four ways, so that what is said of every check is not said of none.
pub fn it_happens()
    ensures each_end_is_reached { Happens }
{}
