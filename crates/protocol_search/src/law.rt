//! The laws of searches for systems, from those of any search.
//! They have no code: each is the contract of a function that does nothing.

ghost use Rattle.protocol_search.specs.OneVerdict.{VerdictIsDetermined, TextIsDetermined, HistoryIsDetermined};
ghost use Rattle.protocol_search.specs.SearchLaws.{VerdictsAreSound, VerdictsShow, TextsShow, LargerBudgetKeepsVerdict, LargerBudgetKeepsText};
ghost use Rattle.protocol_search.specs.SystemHistories.{VerdictsHaveHistories, VerdictsAreOfHistories, SearchRefutesOnce, SearchIsBoundedByKeys};
ghost use Rattle.protocol_search.specs.SystemHistories.{SearchIsBoundedByRuns, LogsAreBoundedByRuns};

/// A system and a search have one verdict, with one log, and a verdict has one text.
pub fn one_verdict()
    ensures verdict { VerdictIsDetermined }
    ensures text { TextIsDetermined }
{}

/// A system and a search have one history.
pub fn one_history()
    ensures { HistoryIsDetermined }
{}

/// Each verdict comes from that history: its log has the sizes of the history's automata, and it is safe, unsafe or unknown exactly where
/// the history ends closed, real or spent.
pub fn verdicts_have_histories()
    ensures histories { VerdictsHaveHistories }
    ensures no_others { VerdictsAreOfHistories }
{}

/// Each verdict shows of the system what it says, and so does its text: that an automaton proves it, and then no run is a counterexample,
/// or that some run is one. The automaton of a safe verdict has fewer states than the budget of its search, and backward at most as many.
pub fn verdicts_show()
    ensures sound { VerdictsAreSound }
    ensures verdicts { VerdictsShow }
    ensures texts { TextsShow }
{}

/// A verdict that decides the system is the verdict for every larger budget, with that budget in its log, and its text is the same.
pub fn larger_budget_keeps_verdict()
    ensures verdict { LargerBudgetKeepsVerdict }
    ensures text { LargerBudgetKeepsText }
{}

/// In the search by predicates no two rounds refute one language, since what a round refutes stays out of every later round.
pub fn no_language_is_refuted_twice()
    ensures { SearchRefutesOnce }
{}

/// The merged automata of a round grow, and where the abstraction tells states apart by signatures they are at most as many as there are
/// sets of facts by its key.
pub fn keys_bound_rounds()
    ensures { SearchIsBoundedByKeys }
{}

/// A counterexample of `n` steps bounds the index of each round by `n`, also in the log, and rules out that one ends closed, so that no
/// verdict is safe.
pub fn runs_bound_rounds()
    ensures histories { SearchIsBoundedByRuns }
    ensures logs { LogsAreBoundedByRuns }
{}
