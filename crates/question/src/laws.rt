// The laws of the questions' clauses.
ghost use Rattle.question.specs.Meaning.{StartAlwaysAsks, PathAlwaysAsks, InclusionAlwaysAsks, StartAlwaysTells, PathAlwaysTells, InclusionAlwaysTells};
ghost use Rattle.question.specs.Meaning.{StartProper, PathProper, InclusionProper, PathSides};
ghost use Rattle.question.specs.Offsets.{StartAlwaysNumbers, PathAlwaysNumbers, InclusionAlwaysNumbers};

pub fn laws_hold()
    ensures start_asks_for_a_bad_state { StartAlwaysAsks }
    ensures start_answer_tells_the_state { StartAlwaysTells }
    ensures path_asks_for_a_bad_state_ahead { PathAlwaysAsks }
    ensures path_answer_tells_the_frames { PathAlwaysTells }
    ensures inclusion_asks_for_a_state_outside { InclusionAlwaysAsks }
    ensures inclusion_answer_tells_the_state { InclusionAlwaysTells }
    ensures start_clauses_are_proper { StartProper }
    ensures path_clauses_are_proper { PathProper }
    ensures inclusion_clauses_are_proper { InclusionProper }
    ensures path_parts_have_their_variables { PathSides }
    ensures start_clauses_have_numbers { StartAlwaysNumbers }
    ensures path_clauses_have_numbers { PathAlwaysNumbers }
    ensures inclusion_clauses_have_numbers { InclusionAlwaysNumbers }
{}
