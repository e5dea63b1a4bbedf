//! The laws about the definitions: on what commands write, how runs end, and what settles them; and
//! the laws of `vcd_model`, which proofs of code use. The laws about dumps that commands wrote, and
//! about other commands over these, are for runs with status 0 whose output is within the limits
//! under which it is read again (`IsReadable`, `AreReadable`).

ghost use Rattle.vcd_laws.specs.Jobs.{JobsAreValid};
ghost use Rattle.vcd_laws.specs.KeptValues.{PickKeeps, CutKeeps, MergeKeepsChanges, MergeKeepsChangesBefore, MergeKeeps, PickRunKeeps, CutRunKeeps, MergeRunKeeps};
ghost use Rattle.vcd_laws.specs.Heads.{HeadIsReadBack, MergedHeadIsReadBack};
ghost use Rattle.vcd_laws.specs.Dumps.{PickIsADump, CutIsADump, MergeIsADump};
ghost use Rattle.vcd_laws.specs.Whole.{PickKeepsAll, CutKeepsAll};
ghost use Rattle.vcd_laws.specs.OverPick.{ListOfPick, SampleOfPick, EdgesOfPick, SampleOfAllPicked, EdgesOfAllPicked, SampleOfSomePicked, EdgesOfSomePicked, PickTwice, PickOfPick};
ghost use Rattle.vcd_laws.specs.OverCut.{ListOfCut, SampleOfCut, SampleOfCutAnywhere, EdgesOfCut, CutTwice, CutPastEnd, CutOfCut, CutOfPick, PickOfCut};
ghost use Rattle.vcd_laws.specs.OverMerge.{ListOfMerge, SampleOfMerge, EdgesOfMerge, SampleOfOneMerged, SampleOfAllMerged, EdgesOfOneMerged, EdgesOfAllMerged, SampleOfAnyMerged, EdgesOfAnyMerged};
ghost use Rattle.vcd_laws.specs.CompareMerged.{CompareOfMerge};
ghost use Rattle.vcd_laws.specs.Matching.{ComparisonIsWithin, SuccessIsAMatch, MergedSuccessIsAMatch, SuccessIsSameness};
ghost use Rattle.vcd_laws.specs.Selecting.{OutermostHaveAllPairs, OutermostHaveEachPairOnce};
ghost use Rattle.vcd_laws.specs.Strobes.{NothingRevisedInStrobe, SameStrobes, StrobeKeeps, StrobeIsADump};
ghost use Rattle.vcd_laws.specs.StrobesMerged.{StrobeSuccessIsAMatch};
ghost use Rattle.vcd_laws.specs.Counted.{CheckOfPick, CheckOfCut, CheckOfMerge};
ghost use Rattle.vcd_laws.specs.Checked.{CheckedIsSafe, CheckNamesTheFault, CleanIsChecked, CheckedMergeIsSafe, MergeNamesTheFault};
ghost use Rattle.vcd_laws.specs.Final.{SettledIsFinal, SettledIsFinalInMerge, SettledMergeIsFinal, SettledAloneSettlesMerge, UnsettledIsOpen, UnsettledMergeIsOpen};
ghost use Rattle.vcd_laws.specs.Due.{DueGrows, DueIsNeverRevised, DueIsLeftAtAHalt, DueIsAllThatIsKnown, SettledDueIsAll, MergeDueGrows, MergeDueIsNeverRevised, MergeDueIsLeftAtHalts, MergeDueIsAllThatIsKnown, SettledMergeDueIsAll, CutOffIsAPrefix, CutOffMergeIsAPrefix, CutOffIsAllThatIsKnown, CutOffMergeIsAllThatIsKnown};

pub use vcd_model::laws::{
    body_reading, codes_differ, header_reading, merge_fits, nothing_revised,
    nothing_revised_in_merge, requests_are_valid, room_fits, short_is_shortest, ticks_are_rounded,
};

/// What words ask for is a job, and its token limit is in range.
pub fn jobs_are_valid()
    ensures { JobsAreValid }
{}

/// If the input has no fault, the selected codes, except those of events, have the same values in
/// what `pick` writes as in the input, at every time.
pub fn pick_keeps()
    ensures { PickKeeps }
{}

/// If the input has no fault before the end of the cut, each code, except those of events, has the
/// same values in what `cut` writes as in the input, at the times of the cut.
pub fn cut_keeps()
    ensures { CutKeeps }
{}

/// The changes under a merged code are those of one input's code.
pub fn merge_keeps_changes()
    ensures { MergeKeepsChanges }
{}

/// The changes under a merged code before a fault are those of one input's code before it.
pub fn merge_keeps_changes_before()
    ensures { MergeKeepsChangesBefore }
{}

/// If no input has a fault, each code of an input, except those of events, has the same values in
/// what `merge` writes, under its new code and at scaled times.
pub fn merge_keeps()
    ensures { MergeKeeps }
{}

/// After a run of `pick` with status 0, the selected codes, except those of events, have the same
/// values in its output as in its input, at every time.
pub fn pick_run_keeps()
    ensures { PickRunKeeps }
{}

/// After a run of `cut` with status 0, each code, except those of events, has the same values in
/// its output as in its input, at the times of the cut.
pub fn cut_run_keeps()
    ensures { CutRunKeeps }
{}

/// After a run of `merge` with status 0, each code of an input, except those of events, has the
/// same values in its output, under its new code and at scaled times.
pub fn merge_run_keeps()
    ensures { MergeRunKeeps }
{}

/// The head that `pick` or `cut` writes can be read again: it has no fault, unless a token is too
/// long for the reader, declares the selected variables as the header of the input does, and ends
/// where the text that follows it begins. The reader must allow as many declarations as such a head
/// may have.
pub fn head_is_read_back()
    ensures { HeadIsReadBack }
{}

/// A merged head is read again as what it was written from, if as many declarations are allowed as
/// it may have, and each scope of an input lies in fewer than 999 others.
pub fn merged_head_is_read_back()
    ensures { MergedHeadIsReadBack }
{}

/// The output of a run of `pick` with status 0 is a dump of the selected variables.
pub fn pick_is_a_dump()
    ensures { PickIsADump }
{}

/// The output of a run of `cut` with status 0 is a dump of all variables, between its times.
pub fn cut_is_a_dump()
    ensures { CutIsADump }
{}

/// The output of a run of `merge` with status 0 is a dump without a fault: it declares all
/// variables of all inputs, and has their values at scaled times. The output must be within the
/// limits under which it is read again (`AreReadable`).
pub fn merge_is_a_dump()
    ensures { MergeIsADump }
{}

/// What `pick` wrote has the selected variables in their scopes and all their changes, events too,
/// in order and at their times.
pub fn pick_keeps_all()
    ensures { PickKeepsAll }
{}

/// What `cut` wrote has all variables in their scopes, the values before its first time, and all
/// changes between its times, events too, in order.
pub fn cut_keeps_all()
    ensures { CutKeepsAll }
{}

/// `list` of what `pick` wrote has the rows of the selected variables.
pub fn list_of_pick()
    ensures { ListOfPick }
{}

/// `sample` of what `pick` wrote is `sample` of its input, for variables that were picked.
pub fn sample_of_pick()
    ensures { SampleOfPick }
{}

/// `edges` of what `pick` wrote is `edges` of its input, for variables that were picked.
pub fn edges_of_pick()
    ensures { EdgesOfPick }
{}

/// `sample` without names of what `pick` wrote is `sample` of its input with the names of the pick.
pub fn sample_of_all_picked()
    ensures { SampleOfAllPicked }
{}

/// `edges` without names of what `pick` wrote is `edges` of its input with the names of the pick.
pub fn edges_of_all_picked()
    ensures { EdgesOfAllPicked }
{}

/// `sample` of what `pick` wrote is `sample` of its input, for what both select.
pub fn sample_of_some_picked()
    ensures { SampleOfSomePicked }
{}

/// `edges` of what `pick` wrote is `edges` of its input, for what both select.
pub fn edges_of_some_picked()
    ensures { EdgesOfSomePicked }
{}

/// `pick` of what `pick` wrote, with the same names, writes it again.
pub fn pick_twice()
    ensures { PickTwice }
{}

/// `pick` of what `pick` wrote is `pick` of its input, for what both select, if the input has a
/// timestamp.
pub fn pick_of_pick()
    ensures { PickOfPick }
{}

/// `list` of what `cut` wrote is `list` of its input.
pub fn list_of_cut()
    ensures { ListOfCut }
{}

/// `sample` of what `cut` wrote is `sample` of its input, at times that were kept.
pub fn sample_of_cut()
    ensures { SampleOfCut }
{}

/// `sample` of what `cut` wrote prints the values of its input between the times of the cut, none
/// before them, and after them those at the second.
pub fn sample_of_cut_anywhere()
    ensures { SampleOfCutAnywhere }
{}

/// `edges` of what `cut` wrote counts from the value before the first of its times to that at the
/// second.
pub fn edges_of_cut()
    ensures { EdgesOfCut }
{}

/// `cut` of what `cut` wrote, from a later time to one that is not later, is `cut` of its input.
pub fn cut_twice()
    ensures { CutTwice }
{}

/// `cut` of what `cut` wrote, from a later time before its end to a time that is not before its
/// end, is `cut` of its input to that end.
pub fn cut_past_end()
    ensures { CutPastEnd }
{}

/// `cut` of what `cut` wrote is a dump of all variables, at times within both.
pub fn cut_of_cut()
    ensures { CutOfCut }
{}

/// `cut` of what `pick` wrote is a dump of what was picked, between the times of the cut.
pub fn cut_of_pick()
    ensures { CutOfPick }
{}

/// `pick` of what `cut` wrote is a dump of what was picked, between the times of the cut.
pub fn pick_of_cut()
    ensures { PickOfCut }
{}

/// `list` of what `merge` wrote has the rows of each input in turn, with new codes.
pub fn list_of_merge()
    ensures { ListOfMerge }
{}

/// `sample` of what `merge` wrote, at scaled times and for names under the scope of one input,
/// prints the values of this input.
pub fn sample_of_merge()
    ensures { SampleOfMerge }
{}

/// `edges` of what `merge` wrote, for names under the scope of one input, prints the counts of this
/// input.
pub fn edges_of_merge()
    ensures { EdgesOfMerge }
{}

/// `sample` of what `merge` wrote prints the values of one input, at any times and for its scope.
pub fn sample_of_one_merged()
    ensures { SampleOfOneMerged }
{}

/// `sample` of what `merge` wrote, without names, prints the values of all inputs at any times.
pub fn sample_of_all_merged()
    ensures { SampleOfAllMerged }
{}

/// `edges` of what `merge` wrote prints the counts of one input, for its scope.
pub fn edges_of_one_merged()
    ensures { EdgesOfOneMerged }
{}

/// `edges` of what `merge` wrote, without names, prints the counts of all inputs.
pub fn edges_of_all_merged()
    ensures { EdgesOfAllMerged }
{}

/// `sample` of what `merge` wrote prints the values of variables of any inputs, at any times.
pub fn sample_of_any_merged()
    ensures { SampleOfAnyMerged }
{}

/// `edges` of what `merge` wrote prints the counts of variables of any inputs.
pub fn edges_of_any_merged()
    ensures { EdgesOfAnyMerged }
{}

/// A comparison of two parts of a dump has status 0 if and only if each name selects something, the
/// first time is reached, and all of both matches, at every time.
pub fn success_is_a_match()
    ensures { SuccessIsAMatch }
{}

/// A comparison whose names all select something, and which reaches its first time, is `within`,
/// the comparison of the other laws.
pub fn comparison_is_within()
    ensures { ComparisonIsWithin }
{}

/// The outermost pairs of names select the same pairs of variables as all pairs of names do, and
/// leave the same variables without a counterpart.
pub fn outermost_have_all_pairs()
    ensures { OutermostHaveAllPairs }
{}

/// The outermost pairs of names select no pair of variables twice.
pub fn outermost_have_each_pair_once()
    ensures { OutermostHaveEachPairOnce }
{}

/// The two inputs in what `merge` wrote differ where the inputs themselves do, up to the end of the
/// shorter one.
pub fn compare_of_merge()
    ensures { CompareOfMerge }
{}

/// The two inputs in what `merge` wrote compare with status 0 in a window if and only if they match
/// at every time of it.
pub fn merged_success_is_a_match()
    ensures { MergedSuccessIsAMatch }
{}

/// `vcdkit merge A B | vcdkit-compare in1=in2` ends with status 0 if and only if A and B have the
/// same variables, at least one, and each has the same state in both at every time.
pub fn success_is_sameness()
    ensures { SuccessIsSameness }
{}

/// What a strobe has written is a prefix of what it writes if more items follow.
pub fn nothing_revised_in_strobe()
    ensures { NothingRevisedInStrobe }
{}

/// Two dumps with the same values just before their edges have the same lines of values at each
/// edge, whatever happens between the edges, and whenever the edges are.
pub fn same_strobes()
    ensures { SameStrobes }
{}

/// What `strobe` writes is a whole body after its head, with or without a fault of the input: at
/// time n the selected codes, except those of events, have their values just before edge n.
pub fn strobe_keeps()
    ensures { StrobeKeeps }
{}

/// The output of a run of `strobe` that is not refused is a dump of the time of an edge and of the
/// selected variables, even if a fault of the input ends the run.
pub fn strobe_is_a_dump()
    ensures { StrobeIsADump }
{}

/// Two merged strobes compare with status 0 if and only if what they have just before their edges
/// matches, at each edge that both have.
pub fn strobe_success_is_a_match()
    ensures { StrobeSuccessIsAMatch }
{}

/// `check` of what `pick` wrote counts the selected variables and what was kept of the body.
pub fn check_of_pick()
    ensures { CheckOfPick }
{}

/// `check` of what `cut` wrote counts all variables, the start section and what was kept of the
/// body.
pub fn check_of_cut()
    ensures { CheckOfCut }
{}

/// `check` of what `merge` wrote counts what all inputs declare, a scope more for each, and the
/// changes that were kept.
pub fn check_of_merge()
    ensures { CheckOfMerge }
{}

/// If `check` succeeds, so does every other command whose names and times fit the header.
pub fn checked_is_safe()
    ensures { CheckedIsSafe }
{}

/// If `check` names a fault of the header, every other command names it too. If it names one of the
/// body, every other command whose names and times fit the header names it too, or succeeds because
/// it needs only the items before it.
pub fn check_names_the_fault()
    ensures { CheckNamesTheFault }
{}

/// If `pick` or `edges` succeeds, so does `check`.
pub fn clean_is_checked()
    ensures { CleanIsChecked }
{}

/// If `check` of each input succeeds, and all headers together have at most 16,777,216
/// declarations, the merge of the inputs succeeds, or names a timestamp that is too large.
pub fn checked_merge_is_safe()
    ensures { CheckedMergeIsSafe }
{}

/// If all headers together have fewer than 16,777,216 declarations, a merge succeeds, or names what
/// `check` names of one of its inputs, or a timestamp that is too large.
pub fn merge_names_the_fault()
    ensures { MergeNamesTheFault }
{}

/// The outcome of a run is the same whatever follows the first tokens that settle it.
pub fn settled_is_final()
    ensures { SettledIsFinal }
{}

/// The outcome of a merge is the same whatever follows the first tokens that settle one of its
/// inputs, if the headers of the inputs before it have no fault.
pub fn settled_is_final_in_merge()
    ensures { SettledIsFinalInMerge }
{}

/// The outcome of a merge is the same whatever follows what is known of all its inputs and settles
/// it.
pub fn settled_merge_is_final()
    ensures { SettledMergeIsFinal }
{}

/// A merge is settled (nothing that follows can change how it ends) once each of its inputs is
/// settled without the others: all of it is known, or its first tokens settle it. Each input may
/// have as many declarations as the inputs before it leave of the number that is allowed.
pub fn settled_alone_settles_merge()
    ensures { SettledAloneSettlesMerge }
{}

/// If first tokens do not settle a run, they leave it open: two inputs begin with them, and end in
/// different ways.
pub fn unsettled_is_open()
    ensures { UnsettledIsOpen }
{}

/// If what is known of inputs does not settle their merge, it leaves it open: two lists of inputs
/// agree with it, and end in different ways.
pub fn unsettled_merge_is_open()
    ensures { UnsettledMergeIsOpen }
{}

/// What is due with more tokens of an input begins with what is due with fewer.
pub fn due_grows()
    ensures { DueGrows }
{}

/// The output over every input that begins with some tokens begins with what is due with them.
pub fn due_is_never_revised()
    ensures { DueIsNeverRevised }
{}

/// If reading is halted after some tokens, the output is what is due with them.
pub fn due_is_left_at_a_halt()
    ensures { DueIsLeftAtAHalt }
{}

/// A text begins the output over every input that begins with some tokens if and only if it begins
/// what is due with them.
pub fn due_is_all_that_is_known()
    ensures { DueIsAllThatIsKnown }
{}

/// If some tokens settle a run, its output is what is due with them.
pub fn settled_due_is_all()
    ensures { SettledDueIsAll }
{}

/// What is due in a merge if more is known of its inputs begins with what is due if less is.
pub fn merge_due_grows()
    ensures { MergeDueGrows }
{}

/// The output of a merge begins with what is due once something is known of its inputs.
pub fn merge_due_is_never_revised()
    ensures { MergeDueIsNeverRevised }
{}

/// If no source of a merge returns more than is known of its input, the output is what is due.
pub fn merge_due_is_left_at_halts()
    ensures { MergeDueIsLeftAtHalts }
{}

/// A text begins the output of every merge of inputs of which the same is known if and only if it
/// begins what is due.
pub fn merge_due_is_all_that_is_known()
    ensures { MergeDueIsAllThatIsKnown }
{}

/// If what is known of the inputs settles a merge, its output is what is due.
pub fn settled_merge_due_is_all()
    ensures { SettledMergeDueIsAll }
{}

/// If a source fails earlier, the output is a prefix of what it would have been.
pub fn cut_off_is_a_prefix()
    ensures { CutOffIsAPrefix }
{}

/// If some sources of a merge fail earlier, the output is a prefix of what it would have been.
pub fn cut_off_merge_is_a_prefix()
    ensures { CutOffMergeIsAPrefix }
{}

/// A text begins the output over every input that begins with some bytes if and only if it begins
/// the output over a source that returns only them and then fails.
pub fn cut_off_is_all_that_is_known()
    ensures { CutOffIsAllThatIsKnown }
{}

/// A text begins the output of every merge that these sources may turn out to be if and only if it
/// begins the output over these, of which those fail that may go on.
pub fn cut_off_merge_is_all_that_is_known()
    ensures { CutOffMergeIsAllThatIsKnown }
{}
