//! Laws of the fold, and of each element inside an iteration: each is called where it is wanted, and its clause is a
//! fact from there on.

ghost use Rattle.chare_eval.specs.Laws.{FoldIsShaped, FoldsFit, SlipsAreNoted, EarlierFlipsDecide, StrikesAreLocal, StepsFollow};
ghost use Rattle.chare_eval.specs.Later.{LaterFlipsDecide, LaterFlipsDecideInside};
ghost use Rattle.chare_eval.specs.Laws.{MessagesFit, PartsRunInAnyOrder, TotalsAreTrue, StepsSend};

/// The states of every fold, with or without flips, are one for each element of the plan, each with as many cells as
/// the element's states have. So a fold's states can be packed and compared, and given as the states of a run.
pub fn fold_is_shaped()
    ensures { FoldIsShaped }
{}

/// The cells of every fold are numbers of 64 bits, for every plan and whatever flips strike. So a checkpoint can spell
/// each of its states, those that no program computes included.
pub fn folds_fit()
    ensures { FoldsFit }
{}

/// Between two iterations of a fold the slip of an element is none, or it has one of the three kinds and names one of
/// the element's steps in an iteration that is completed.
pub fn slips_are_noted()
    ensures { SlipsAreNoted }
{}

/// The states after some iterations are the same with all flips and with those of earlier iterations alone. So a flip
/// can be dropped or added without a change of the states up to its own iteration.
pub fn earlier_flips_decide()
    ensures { EarlierFlipsDecide }
{}

/// From equal states on, equal flips of that iteration and later lead to equal states, and to equal cells, messages and
/// contributions inside each iteration. So a replica may go over to other flips of earlier iterations where they made
/// the same states.
pub fn later_flips_decide()
    ensures states { LaterFlipsDecide }
    ensures inside { LaterFlipsDecideInside }
{}

/// An element begins an iteration with its cells as they are after the iterations before it, struck by its own flips
/// of this iteration, whatever strikes others.
pub fn strikes_are_local()
    ensures { StrikesAreLocal }
{}

/// An element whose parts of a step are all done stands before its next step; after its last step it stands between
/// two iterations, with one more completed. It doesn't matter how far other elements are.
pub fn steps_follow()
    ensures { StepsFollow }
{}

/// A part that isn't done yet, run on the cells that the done ones left and on the message that it needs, leads to the
/// cells where it is done too, whichever parts are done and in whatever order they ran. Each message that it sends is
/// the one that its receiver finds in this iteration, and each of its contributions is the element's.
pub fn parts_run_in_any_order()
    ensures { PartsRunInAnyOrder }
{}

/// Each element of a reduction's array contributes once in an iteration. What each finds as the total joins these
/// contributions in element order.
pub fn totals_are_true()
    ensures { TotalsAreTrue }
{}

/// In the step that sends to an entry an element sends a message to the element whose source it is there, if there is
/// one.
pub fn steps_send()
    ensures { StepsSend }
{}

/// Each message that an element finds at an entry, from an element or from beyond an edge, has as many values as the
/// entry says, and each total has one. So whatever value of a message a part names was sent to it.
pub fn messages_fit()
    ensures { MessagesFit }
{}
