//! The laws of search on demand, each the contract of a function that does nothing.

ghost use Rattle.std.specs.Prelude.{List, ℕ};
ghost use Rattle.prin_term.specs.declared.term.Anchor.{Anchor};
ghost use Rattle.prin_term.specs.Principal.{Principal};
ghost use Rattle.taos_calculus.specs.declared.line.Node.{Node};
ghost use Rattle.taos_calculus.specs.Rules.{Claim};
ghost use Rattle.goal_search.specs.Goals.{Goal};
ghost use Rattle.goal_search.specs.Decided.{RowsDecide, RowsRefute, AskedDecide};
ghost use Rattle.goal_search.specs.Decided.{AddingKeepsSound, AnswersAreClosed};
ghost use Rattle.goal_search.specs.Decided.{RowsStaySound, UnreachedAddsNothing, RowsAddUp};
ghost use Rattle.goal_search.specs.DecidedNumbers.{NumbersDecide, NumbersRefute};
ghost use Rattle.goal_search.specs.DecidedNumbers.{AddingGivesAnswers, NumbersStaySound};
ghost use Rattle.goal_search.specs.DecidedNumbers.{UnreachedNumbersAddNothing};

/// A finished row that begins with a goal and is sound has exactly what answers the goal, through
/// whatever principals a derivation goes. Anchors and certificates that finished rows do not touch
/// need not be in the table.
pub fn finished_rows_decide()
    ensures { (anchors : List Anchor) (claims : List Claim) (table : List Principal)
        (rows : List (List Principal)) → RowsDecide anchors claims table rows }
{}

/// What a finished row refuses is not derivable, whether the row is sound or not.
pub fn finished_rows_refute()
    ensures { (anchors : List Anchor) (claims : List Claim) (table : List Principal)
        (rows : List (List Principal)) → RowsRefute anchors claims table rows }
{}

/// The same with the plain demand: where asked rows are closed under the rules and nothing more is
/// demanded.
pub fn asked_rows_decide()
    ensures { (anchors : List Anchor) (claims : List Claim) (table : List Principal)
        (asked : List (Goal Principal)) (row : Goal Principal → List Principal)
        → AskedDecide anchors claims table asked row }
{}

/// What a rule adds to sound rows is derivable.
pub fn adding_keeps_sound()
    ensures { (anchors : List Anchor) (claims : List Claim)
        (row : Goal Principal → List Principal) → AddingKeepsSound anchors claims row }
{}

/// All that is derivable makes closed rows, so closed rows can be had.
pub fn answers_are_closed()
    ensures { (anchors : List Anchor) (claims : List Claim) (table : List Principal)
        → AnswersAreClosed anchors claims table }
{}

/// Certificates that are added leave each row sound.
pub fn rows_stay_sound()
    ensures { (anchors : List Anchor) (claims more : List Claim)
        → RowsStaySound anchors claims more }
{}

/// Certificates that are about none of the members of finished rows leave these finished.
pub fn unreached_adds_nothing()
    ensures { (anchors : List Anchor) (claims more : List Claim) (table : List Principal)
        (rows : List (List Principal)) → UnreachedAddsNothing anchors claims more table rows }
{}

/// A row that is finished beside some rows is finished beside more.
pub fn finished_rows_add_up()
    ensures { (anchors : List Anchor) (claims : List Claim) (table : List Principal)
        (rows more : List (List Principal)) → RowsAddUp anchors claims table rows more }
{}

/// The first law over the numbers of a table of nodes.
pub fn finished_numbers_decide()
    ensures { (nodes : List Node) (anchors : List Anchor) (claims : List Claim)
        (rows : List (List ℕ)) → NumbersDecide nodes anchors claims rows }
{}

/// The second law over the numbers of a table of nodes.
pub fn finished_numbers_refute()
    ensures { (nodes : List Node) (anchors : List Anchor) (claims : List Claim)
        (rows : List (List ℕ)) → NumbersRefute nodes anchors claims rows }
{}

/// What a rule adds to answers, over the numbers of a table of nodes, is derivable.
pub fn adding_gives_answers()
    ensures { (nodes : List Node) (anchors : List Anchor) (claims : List Claim)
        → AddingGivesAnswers nodes anchors claims }
{}

/// Certificates that are added, and nodes behind those that were there, leave each row sound.
pub fn numbers_stay_sound()
    ensures { (nodes grown : List Node) (anchors : List Anchor) (claims more : List Claim)
        → NumbersStaySound nodes grown anchors claims more }
{}

/// Certificates that are about none of the members of finished rows leave these finished, over the
/// numbers of a table of nodes.
pub fn unreached_numbers_add_nothing()
    ensures { (nodes : List Node) (anchors : List Anchor) (claims more : List Claim)
        (rows : List (List ℕ)) → UnreachedNumbersAddNothing nodes anchors claims more rows }
{}
